// What a crowd takes, by trying every choice of each student.
ghost use Rattle.std.specs.Prelude.{◌≡◌, ◌<◌, ℕ, IfOk, All, length, map, nat_lt};
ghost use Rattle.std.specs.FinSet as set;
ghost use Rattle.market_units.specs.declared.units.Tokens.{Tokens};
ghost use Rattle.bundle_rules.specs.{Bundles.sections_of, Demand.price_in};
ghost use Rattle.demand_api.specs.Asking.{ArePricesFor};
ghost use Rattle.demand_api.specs.{Crowds.demand_of, Crowds.count, Crowds.counts, Views.data_of};

use crate::Crowd;
use crate::counting::count_bundle;
use bundle_rules::{Bundle, best_plain};
use market_units::{NoMemory, SectionNo, SectionSet, StudentNo, Tokens};
use std::alloc::Global;

/// A crowd, and prices at which it is asked: one for each section, each at most the top.
#[derive(Clone, Copy)]
pub(crate) struct Priced<'a> {
    pub(crate) crowd: &'a Crowd,
    /// By ordinal of the section.
    pub(crate) prices: &'a [Tokens],
    pub(crate) ghost priced: { ArePricesFor (data_of crowd.now) prices.now },
}

// What the student at this place takes, with all sections allowed.
fn demand(asked: &Priced, allowed: &SectionSet, place: usize) -> Bundle
    requires allowed { (s : ℕ) → set.contains allowed.now s ≡ nat_lt s asked.now.crowd.now.sections }
    requires range { place < length asked.now.crowd.now.menus.items }
    ensures { sections_of result
        ≡ demand_of (data_of asked.now.crowd.now) (price_in asked.now.prices.now) place }
{
    let Priced { crowd, prices } = *asked;
    best_plain(&crowd.menus[place], prices, crowd.budgets[place], allowed)
}

/// The bundle that each listed student takes at these prices, in the order of the list. The only
/// error is that memory was not given.
pub(crate) fn bundles(
    alloc: Global,
    asked: &Priced,
    students: &[StudentNo],
) -> Result<Vec<Bundle>, NoMemory>
    requires { All (λ student. student.0 < length asked.now.crowd.now.menus.items) students.now }
    ensures { IfOk result
        (λ bundles. map sections_of bundles.items
        ≡ map (λ student. demand_of (data_of asked.now.crowd.now) (price_in asked.now.prices.now)
        student.0) students.now) }
{
    let allowed = SectionSet::full(asked.crowd.sections);
    let mut bundles = Vec::new(alloc);
    for student in students {
        let bundle = demand(asked, &allowed, usize::from(student.0));
        bundles.push(bundle)?;
    }
    Ok(bundles)
}

/// For each section, how many students take it at these prices. The only error is that memory was
/// not given.
pub(crate) fn counts_at(alloc: Global, asked: &Priced) -> Result<Vec<u32>, NoMemory>
    ensures { IfOk result
        (λ found. found.items
        ≡ counts (data_of asked.now.crowd.now) (price_in asked.now.prices.now)) }
{
    let crowd = asked.crowd;
    let allowed = SectionSet::full(crowd.sections);
    let mut counts = vec![in alloc; 0u32; usize::from(crowd.sections)]?;
    for place in 0..crowd.menus.len() {
        let bundle = demand(asked, &allowed, place);
        count_bundle(&mut counts, bundle.sections());
    }
    Ok(counts)
}

/// How many students take the section at these prices.
pub(crate) fn count_of(asked: &Priced, section: SectionNo) -> u32
    ensures { result
        ≡ count (data_of asked.now.crowd.now) (price_in asked.now.prices.now) section.0 }
{
    let crowd = asked.crowd;
    let allowed = SectionSet::full(crowd.sections);
    let mut count = 0;
    for place in 0..crowd.menus.len() {
        if demand(asked, &allowed, place).has(section) {
            count += 1;
        }
    }
    count
}
