// The trees of champions, written.
ghost use Rattle.std.specs.Prelude.{◌≡◌, ◌<◌, ◌≤◌, ◌++◌, ◌+◌, ℕ, List, Some, None, IfSome, IfNone, IfOk, OnOk, length, take, drop};
ghost use Rattle.std.specs.FinSet as set;
ghost use Rattle.bundle_rules.specs.Bundles.{sections_of};
ghost use Rattle.bundle_rules.specs.Demand.{HasPrices, IsBest, price_in};
ghost use Rattle.bundle_rules.specs.{Given.IsBestWith, Menus.wishes_of, Menus.place_in};
ghost use Rattle.bundle_bounds.specs.Offers.{offer_of};
ghost use Rattle.proof_tree.specs.{Claims.offer_in, Claims.champion_in, Laws.HasTree};
ghost use Rattle.proof_tree.specs.Texts.{IsTreeText};

use crate::claim::Claim;
use crate::symbols::spell;
use crate::walk::{PLACES, Step, Walk, root_stem};
use bundle_bounds::Offer;
use bundle_rules::{Bundle, Menu};
use market_units::{NoMemory, SectionNo, SectionSet, Tokens};
use std::alloc::Global;

/// The text of the canonical tree of a champion that is the best bundle, or `NoMemory`, for want of
/// memory alone. There is a price for each section of the menu, each at most 1,000,001.
pub fn build(
    alloc: Global,
    menu: &Menu,
    prices: &[Tokens],
    budget: Tokens,
    allowed: &SectionSet,
    champion: &Bundle,
) -> Result<Vec<u8>, NoMemory>
    requires prices { HasPrices menu.now prices.now }
    requires best { IsBest (wishes_of menu.now) (price_in prices.now) budget.0
        (set.contains allowed.now) (sections_of champion.now) }
    ensures { IfOk result
        (λ text. IsTreeText (offer_of menu.now prices.now budget.0 allowed.now) None
        (sections_of champion.now) text.items) }
{
    let menu = menu.rows();
    prove!(menu.len() <= PLACES);
    let offer = Offer {
        menu,
        prices,
        budget,
        allowed,
    };
    let claim = Claim {
        offer: &offer,
        required: None,
        champion,
    };
    written(alloc, &claim)
}

/// The text of the forced tree of a champion that is the best bundle with the section, or
/// `NoMemory`, for want of memory alone. There is a price for each section of the menu, each at
/// most 1,000,001.
pub fn build_forced(
    alloc: Global,
    menu: &Menu,
    prices: &[Tokens],
    budget: Tokens,
    allowed: &SectionSet,
    section: SectionNo,
    champion: &Bundle,
) -> Result<Vec<u8>, NoMemory>
    requires prices { HasPrices menu.now prices.now }
    requires best { IsBestWith (wishes_of menu.now) (price_in prices.now) budget.0
        (set.contains allowed.now) section.0 (sections_of champion.now) }
    ensures { IfOk result
        (λ text. IsTreeText (offer_of menu.now prices.now budget.0 allowed.now)
        (Some (place_in menu.now.places section.0)) (sections_of champion.now) text.items) }
{
    let menu = menu.rows();
    prove!(menu.len() <= PLACES);
    let place = menu.place(section);
    let offer = Offer {
        menu,
        prices,
        budget,
        allowed,
    };
    let claim = Claim {
        offer: &offer,
        required: Some(place),
        champion,
    };
    written(alloc, &claim)
}

// The text of the claim's tree, where there is one.
fn written(alloc: Global, claim: &Claim) -> Result<Vec<u8>, NoMemory>
    requires { HasTree (offer_in claim.now) claim.now.required (champion_in claim.now) }
    ensures { IfOk result
        (λ text. IsTreeText (offer_in claim.now) claim.now.required (champion_in claim.now)
        text.items) }
{
    let mut text = Vec::new(alloc);
    let mut walk = Walk::start(&root_stem(claim));
    'nodes: loop {
        match walk.step(claim) {
            Step::Signed(sign) => {
                let symbol = spell(sign);
                put_behind(&mut text, symbol.as_slice())?;
            }
            Step::Unsigned => return Ok(text),
            Step::Ended => return Ok(text),
        }
    }
}

// Puts the bytes behind a text, or answers that memory is wanting.
fn put_behind(text: &mut Vec<u8>, bytes: &[u8]) -> Result<(), NoMemory>
    ensures { OnOk result (text.new.items ≡ text.old.items ++ bytes.now) }
{
    // Most symbols are one byte, for which this is less than a copy of a slice.
    if let [byte] = bytes {
        text.push(*byte)?;
        return Ok(());
    }
    text.extend_from_slice(bytes)?;
    Ok(())
}

/// Writes the text of the canonical tree of a champion that is the best bundle to the front of the
/// room, and gives how many bytes it has; `None` exactly where it is longer than the room, which
/// then holds no tree. It takes no memory. There is a price for each section of the menu, each at
/// most 1,000,001.
pub fn build_into(
    menu: &Menu,
    prices: &[Tokens],
    budget: Tokens,
    allowed: &SectionSet,
    champion: &Bundle,
    room: &mut [u8],
) -> Option<usize>
    requires prices { HasPrices menu.now prices.now }
    requires best { IsBest (wishes_of menu.now) (price_in prices.now) budget.0
        (set.contains allowed.now) (sections_of champion.now) }
    ensures some { IfSome result
        (λ count. (count ≤ length room.old)
        × IsTreeText (offer_of menu.now prices.now budget.0 allowed.now) None
        (sections_of champion.now) (take count room.new)) }
    ensures same { IfSome result (λ count. drop count room.new ≡ drop count room.old) }
    ensures none { IfNone result
        ((text : List ℕ)
        → IsTreeText (offer_of menu.now prices.now budget.0 allowed.now) None
        (sections_of champion.now) text
        → length room.old < length text) }
{
    let menu = menu.rows();
    prove!(menu.len() <= PLACES);
    let offer = Offer {
        menu,
        prices,
        budget,
        allowed,
    };
    let claim = Claim {
        offer: &offer,
        required: None,
        champion,
    };
    let mut count = 0;
    let mut walk = Walk::start(&root_stem(&claim));
    'nodes: loop {
        match walk.step(&claim) {
            Step::Signed(sign) => {
                let symbol = spell(sign);
                count = put_at(room, count, symbol.as_slice())?;
            }
            Step::Unsigned => return Some(count),
            Step::Ended => return Some(count),
        }
    }
}

// Writes the bytes behind the first ones of the room, and gives how many these are then; `None`
// exactly where there is not so much room.
fn put_at(room: &mut [u8], count: usize, bytes: &[u8]) -> Option<usize>
    requires { count ≤ length room.old }
    ensures size { length room.new ≡ length room.old }
    ensures some { IfSome result
        (λ next. (next ≡ count + length bytes.now) × (next ≤ length room.old)
        × (take next room.new ≡ take count room.old ++ bytes.now)
        × (drop next room.new ≡ drop next room.old)) }
    ensures none { IfNone result (length room.old < count + length bytes.now) }
{
    if bytes.len() > room.len() - count {
        return None;
    }
    // Most symbols are one byte, for which this is less than a copy of a slice.
    if let [byte] = bytes {
        room[count] = *byte;
        return Some(count + 1);
    }
    let next = count + bytes.len();
    room[count..next].copy_from_slice(bytes);
    Some(next)
}
