// Explanations.
ghost use Rattle.std.specs.Prelude.{◌<◌, IfOk, IfSome, IfNone, nat_lt};
ghost use Rattle.bundle_rules.specs.Bundles.{sections_of};
ghost use Rattle.bundle_rules.specs.Demand.{IsBest, price_in};
ghost use Rattle.bundle_rules.specs.{Given.SomeHas, Menus.wishes_of};
ghost use Rattle.explain_desk.specs.Explanations.{CanBeOffered, IsExplained, IsProvedWith, offer_of_all};
ghost use Rattle.explain_desk.specs.Views.{explained_of, offer_made, proved_of};

use crate::offered::Offered;
use crate::reasons::{reason_of, tells_best};
use crate::{Explained, Proved};
use bundle_rules::{Bundle, Menu};
use demand_oracle::{Workspace, demand_with};
use market_units::{NoMemory, SectionNo, SectionSet, Tokens};
use proof_tree::build_forced;
use std::alloc::Global;

/// Why a student does not have a section, where all of so many sections are offered and the bundle
/// is the student's best one; and where some bundle with the section can be had and the student
/// does not have it, the best such bundle with its forced tree. There are at most 400 sections,
/// those of the menu and this one among them, and there is a price for each section of the menu,
/// each at most 1,000,001. `NoMemory` comes for want of memory alone.
pub fn explain(
    alloc: Global,
    menu: &Menu,
    prices: &[Tokens],
    budget: Tokens,
    sections: u16,
    bundle: &Bundle,
    section: SectionNo,
) -> Result<Explained, NoMemory>
    requires offer { CanBeOffered menu.now prices.now sections }
    requires section { section.0 < sections }
    requires bundle { IsBest (wishes_of menu.now) (price_in prices.now) budget.0
        (λ s. nat_lt s sections) (sections_of bundle.now) }
    ensures { IfOk result
        (λ explained. IsExplained (offer_of_all menu.now prices.now budget.0 sections)
        (sections_of bundle.now) section.0 (explained_of explained)) }
{
    let offered = Offered {
        menu,
        prices,
        budget,
        sections,
    };
    let reason = reason_of(&offered, bundle, section);
    if !tells_best(reason) {
        return Ok(Explained { reason, best: None });
    }
    let best = best_with(alloc, &offered, section)?;
    Ok(Explained { reason, best })
}

// The best bundle with the section, with its forced tree, where some bundle has the section.
fn best_with(
    alloc: Global,
    offered: &Offered,
    section: SectionNo,
) -> Result<Option<Proved>, NoMemory>
    ensures some { IfOk result
        (λ best. IfSome best
        (λ proved. IsProvedWith (offer_made offered.now) section.0 (proved_of proved))) }
    ensures none { IfOk result
        (λ best. IfNone best
        (¬ SomeHas (wishes_of offered.now.menu.now) (price_in offered.now.prices.now)
        offered.now.budget.0 (λ s. nat_lt s offered.now.sections) section.0)) }
{
    let menu = offered.menu;
    let prices = offered.prices;
    let budget = offered.budget;
    let all = SectionSet::full(offered.sections);
    let mut workspace = Workspace::reserve(alloc)?;
    match demand_with(&mut workspace, menu, prices, budget, &all, section) {
        Some(bundle) => {
            let tree = build_forced(alloc, menu, prices, budget, &all, section, &bundle)?;
            Ok(Some(Proved { bundle, tree }))
        }
        None => Ok(None),
    }
}
