// Whether a text is the forced tree of a bundle with a section.
ghost use Rattle.std.specs.Prelude.{◌≡◌, ◌↔◌, ◌≤◌, true, Some, IsOk, IfErr};
ghost use Rattle.market_units.specs.{Members.has, Totals.total};
ghost use Rattle.bundle_rules.specs.{Bundles.sections_of, Demand.price_in};
ghost use Rattle.bundle_rules.specs.{Menus.place_in, Menus.wishes_of, Wishes.IsFeasible};
ghost use Rattle.proof_tree.specs.Defects.{FirstFailsAt};
ghost use Rattle.explain_desk.specs.Explanations.{CanBeOffered, IsProvedWith, offer_of_all};

use bundle_rules::{Bundle, Menu};
use market_units::{SectionNo, SectionSet, Tokens};

/// Whether the champion is the best bundle with the section, where all of so many sections are
/// offered, and the text its forced tree: `Ok` exactly there, and else the offset, in bytes, at
/// which the walk of the tree's nodes with the text first fails, told as 4,294,967,295 where it is
/// greater. It takes no memory. There are at most 400 sections, those of the menu among them, and
/// there is a price for each section of the menu, each at most 1,000,001; the champion is feasible,
/// within the budget, and has the section.
pub fn check_forced(
    menu: &Menu,
    prices: &[Tokens],
    budget: Tokens,
    sections: u16,
    section: SectionNo,
    champion: &Bundle,
    text: &[u8],
) -> Result<(), u32>
    requires offer { CanBeOffered menu.now prices.now sections }
    requires feasible { IsFeasible (wishes_of menu.now) (sections_of champion.now) }
    requires affordable { total (price_in prices.now) (sections_of champion.now) ≤ budget.0 }
    requires section { has (sections_of champion.now) section.0 ≡ true }
    ensures ok { IsOk result
        ↔ IsProvedWith (offer_of_all menu.now prices.now budget.0 sections) section.0
        (record { bundle = sections_of champion.now; tree = text.now }) }
    ensures at { IfErr result
        (FirstFailsAt (offer_of_all menu.now prices.now budget.0 sections)
        (Some (place_in menu.now.places section.0)) (sections_of champion.now) text.now) }
{
    let all = SectionSet::full(sections);
    proof_tree::check_forced(menu, prices, budget, &all, section, champion, text)
}
