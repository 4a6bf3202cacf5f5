// Whether a text is the tree of a champion, and where it first is not.
ghost use Rattle.std.specs.Prelude.{◌≡◌, ◌≢◌, ◌<◌, ◌↔◌, [], ℕ, List, Some, None, true, IsTrue, IsOk, IfOk, IfErr, IfSome, OnOk, length};
ghost use Rattle.proof_tree.specs.Claims.{offer_in, champion_in};
ghost use Rattle.proof_tree.specs.Defects.{IsCanonical, IsDefect, IsLeaf, FirstFailsAt, offset};
ghost use Rattle.proof_tree.specs.Mismatches.{IsOther, IsMismatch, IsUnsigned, offset_in};
ghost use Rattle.proof_tree.specs.Texts.{IsTreeText, Stands};
ghost use Rattle.proof_tree.specs.declared.defects.TreeDefect.TheVariants.{Rest};
ghost use Rattle.std.specs.FinSet as set;
ghost use Rattle.market_units.specs.Members.{has};
ghost use Rattle.bundle_rules.specs.Bundles.{sections_of};
ghost use Rattle.bundle_rules.specs.Demand.{HasPrices, IsBest, price_in};
ghost use Rattle.bundle_rules.specs.{Given.IsBestWith, Menus.wishes_of, Menus.place_in};
ghost use Rattle.bundle_bounds.specs.{Laws.IsTakable, Offers.offer_of};

use crate::claim::Claim;
use crate::defects::TreeDefect;
use crate::signs::Sign;
use crate::symbols::read_symbol;
use crate::walk::{PLACES, Step, Walk, root_stem};
use bundle_bounds::Offer;
use bundle_rules::{Bundle, Menu};
use market_units::{SectionNo, SectionSet, Tokens};

// The offset of the rest of a text, told as 4,294,967,295 where it is greater.
fn offset_of(text: &[u8], rest: &[u8]) -> u32
    ensures { result ≡ offset text.now rest.now }
{
    let most = 0xffff_ffff;
    text.len().saturating_sub(rest.len()).min(most) as u32
}

// Whether the sign is a leaf.
fn is_leaf(sign: Sign) -> bool
    ensures { IsTrue result ↔ IsLeaf sign }
{
    match sign {
        Sign::Pruned(_) => true,
        Sign::Champion | Sign::Shut | Sign::Forced | Sign::Open | Sign::Passed => false,
    }
}

// Whether the sign is one of canonical trees.
fn is_canonical(sign: Sign) -> bool
    ensures { IsTrue result ↔ IsCanonical sign }
{
    match sign {
        Sign::Shut | Sign::Forced => false,
        Sign::Champion | Sign::Pruned(_) | Sign::Open | Sign::Passed => true,
    }
}

// What is wrong where one symbol stands, and the canonical sign is another.
fn other_symbol(read: Sign, sign: Sign, at: u32) -> TreeDefect
    ensures offset { offset_in result ≡ at }
    ensures other { IsOther read sign result }
{
    if is_leaf(read) {
        return if is_leaf(sign) {
            TreeDefect::WrongLeaf(at)
        } else {
            TreeDefect::NotClosed(at)
        };
    }
    if is_leaf(sign) {
        TreeDefect::Redundant(at)
    } else {
        TreeDefect::WrongBranch(at)
    }
}

// Whether two signs are the same.
fn is_same(read: Sign, sign: Sign) -> bool
    ensures { IsTrue result ↔ (read ≡ sign) }
{
    read == sign
}

// What is left after the symbol of the canonical sign, where it stands first.
fn after_symbol<'t>(rest: &'t [u8], sign: Sign, at: u32) -> Result<&'t [u8], TreeDefect>
    ensures ok { IfOk result (λ later. Stands sign rest.now later.now) }
    ensures offset { IfErr result (λ defect. offset_in defect ≡ at) }
    ensures stuck { IfErr result (λ defect. (later : List ℕ) → ¬ Stands sign rest.now later) }
    ensures mismatch { IfErr result (IsMismatch sign rest.now) }
{
    let Some((read, later)) = read_symbol(rest) else {
        return Err(TreeDefect::Syntax(at));
    };
    if is_same(read, sign) {
        return Ok(later);
    }
    if is_canonical(read) {
        Err(other_symbol(read, sign, at))
    } else {
        Err(TreeDefect::Syntax(at))
    }
}

// What is wrong at a node without a canonical sign.
fn without_sign(rest: &[u8], at: u32) -> TreeDefect
    ensures offset { offset_in result ≡ at }
    ensures unsigned { IsUnsigned rest.now result }
{
    match read_symbol(rest) {
        Some((read, _)) => {
            if is_canonical(read) {
                TreeDefect::NotClosed(at)
            } else {
                TreeDefect::Syntax(at)
            }
        }
        None => TreeDefect::Syntax(at),
    }
}

// What stands behind a whole tree: nothing, or more bytes.
fn ended(rest: &[u8], at: u32) -> Result<(), TreeDefect>
    ensures ok { OnOk result (rest.now ≡ []) }
    ensures err { IfErr result (λ defect. (rest.now ≢ []) × (defect ≡ Rest at)) }
{
    if rest.is_empty() {
        Ok(())
    } else {
        Err(TreeDefect::Rest(at))
    }
}

// Walks the tree of a claim along a text: the symbol of each node's canonical sign has to stand
// first.
fn follow(claim: &Claim, text: &[u8]) -> Result<(), TreeDefect>
    ensures ok { OnOk result
        (IsTreeText (offer_in claim.now) claim.now.required (champion_in claim.now) text.now) }
    ensures fails { IfErr result
        (λ defect. FirstFailsAt (offer_in claim.now) claim.now.required (champion_in claim.now)
        text.now (offset_in defect)) }
    ensures defect { IfErr result
        (λ defect. claim.now.required ≡ None
        → IsDefect (offer_in claim.now) (champion_in claim.now) text.now defect) }
{
    let mut walk = Walk::start(&root_stem(claim));
    let mut rest = text;
    'nodes: loop {
        let at = offset_of(text, rest);
        match walk.step(claim) {
            Step::Ended => return ended(rest, at),
            Step::Unsigned => return Err(without_sign(rest, at)),
            Step::Signed(sign) => rest = after_symbol(rest, sign, at)?,
        }
    }
}

/// Whether the text is the canonical tree of a champion that is the best bundle: `Ok` exactly
/// there, and else the first defect of the walk of its nodes with the text. It takes no memory.
/// There is a price for each section of the menu, each at most 1,000,001; the champion is feasible,
/// within the budget and of allowed sections.
pub fn check_tree(
    menu: &Menu,
    prices: &[Tokens],
    budget: Tokens,
    allowed: &SectionSet,
    champion: &Bundle,
    text: &[u8],
) -> Result<(), TreeDefect>
    requires prices { HasPrices menu.now prices.now }
    requires champion { IsTakable (offer_of menu.now prices.now budget.0 allowed.now)
        (sections_of champion.now) }
    ensures ok { IsOk result
        ↔ (IsBest (wishes_of menu.now) (price_in prices.now) budget.0 (set.contains allowed.now)
        (sections_of champion.now)
        × IsTreeText (offer_of menu.now prices.now budget.0 allowed.now) None
        (sections_of champion.now) text.now) }
    ensures defect { IfErr result
        (IsDefect (offer_of menu.now prices.now budget.0 allowed.now) (sections_of champion.now)
        text.now) }
{
    let menu = menu.rows();
    prove!(menu.len() <= PLACES);
    let offer = Offer {
        menu,
        prices,
        budget,
        allowed,
    };
    let claim = Claim {
        offer: &offer,
        required: None,
        champion,
    };
    follow(&claim, text)
}

/// Whether the text is the forced tree of a champion that is the best bundle with the section: `Ok`
/// exactly there, and else the offset, in bytes, at which the walk of its nodes with the text first
/// fails, told as 4,294,967,295 where it is greater. It takes no memory. There is a price for each
/// section of the menu, each at most 1,000,001; the champion is feasible, within the budget, of
/// allowed sections, and has the section.
pub fn check_forced(
    menu: &Menu,
    prices: &[Tokens],
    budget: Tokens,
    allowed: &SectionSet,
    section: SectionNo,
    champion: &Bundle,
    text: &[u8],
) -> Result<(), u32>
    requires prices { HasPrices menu.now prices.now }
    requires champion { IsTakable (offer_of menu.now prices.now budget.0 allowed.now)
        (sections_of champion.now) }
    requires section { has (sections_of champion.now) section.0 ≡ true }
    ensures ok { IsOk result
        ↔ (IsBestWith (wishes_of menu.now) (price_in prices.now) budget.0 (set.contains allowed.now)
        section.0 (sections_of champion.now)
        × IsTreeText (offer_of menu.now prices.now budget.0 allowed.now)
        (Some (place_in menu.now.places section.0)) (sections_of champion.now) text.now) }
    ensures at { IfErr result
        (FirstFailsAt (offer_of menu.now prices.now budget.0 allowed.now)
        (Some (place_in menu.now.places section.0)) (sections_of champion.now) text.now) }
{
    let menu = menu.rows();
    prove!(menu.len() <= PLACES);
    let place = menu.place(section);
    let offer = Offer {
        menu,
        prices,
        budget,
        allowed,
    };
    let claim = Claim {
        offer: &offer,
        required: Some(place),
        champion,
    };
    match follow(&claim, text) {
        Ok(()) => Ok(()),
        Err(defect) => Err(defect.offset()),
    }
}
