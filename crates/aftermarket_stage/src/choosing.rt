// The best bundles of students, sought only where something new may be chosen.
ghost use Rattle.std.specs.Prelude.{◌≡◌, ◌<◌, ◌≤◌, ◌||◌, ℕ, [], List, Option, None, Some, IfOk, IsTrue, All, true, not, length, map, slice_get, slice_index_or, slice_set};
ghost use Rattle.std.specs.FinSet as set;
ghost use Rattle.market_units.specs.Members.{has};
ghost use Rattle.bundle_rules.specs.Bundles.{sections_of};
ghost use Rattle.aftermarket_stage.specs.After.{terms_in};
ghost use Rattle.aftermarket_stage.specs.HeldChoices.{AreKnown, IsSettled};
ghost use Rattle.aftermarket_stage.specs.Runs.{IsBestAt};

use crate::terms::Terms;
use budget_draw::raised;
use bundle_rules::{Bundle, Menu, Rated};
use demand_oracle::{Workspace, demand_from};
use market_units::{MAX_SECTIONS, NoMemory, SectionNo, SectionSet};
use std::alloc::Global;

// Room for demands, and for each student the sections of which the bundle that it holds is known to
// be the best.
#[derive(Drop)]
pub(crate) struct Chooser {
    workspace: Workspace,
    pub(crate) known: Vec<Option<SectionSet>>,
}

impl Chooser {
    /// A chooser for so many students: its memory is taken, and of no student a best bundle is
    /// known yet.
    pub(crate) fn reserve(alloc: Global, students: usize) -> Result<Chooser, NoMemory>
        ensures size { IfOk result (λ chooser. length chooser.known.items ≡ students) }
        ensures none { IfOk result (λ chooser. All (λ known. known ≡ None) chooser.known.items) }
    {
        let mut known = Vec::with_capacity(alloc, students)?;
        for _ in 0..students {
            known.push(None)?;
        }
        Ok(Chooser {
            workspace: Workspace::reserve(alloc)?,
            known,
        })
    }

    /// The best bundle of allowed sections for the student at this place of the crowd, bought with
    /// its raised budget. What the student holds is allowed: where nothing else on its menu is new
    /// since its bundle was found, the bundle is still the best, and no search is made.
    pub(crate) fn best_at(
        &mut self,
        terms: &Terms,
        allowed: &SectionSet,
        held: &[Bundle],
        place: usize,
    ) -> Bundle
        requires place { place < length terms.now.crowd.now.menus.items }
        requires students { length held.now ≡ length terms.now.crowd.now.menus.items }
        requires size { length self.old.known.items ≡ length terms.now.crowd.now.menus.items }
        requires held { (s : ℕ) → has (slice_index_or (map sections_of held.now) place []) s ≡ true
            → set.contains allowed.now s ≡ true }
        requires known { AreKnown (terms_in terms.now) (map sections_of held.now)
            self.old.known.items }
        ensures best { IsBestAt (terms_in terms.now) place (set.contains allowed.now)
            (sections_of result) }
        ensures size { length self.new.known.items ≡ length self.old.known.items }
        ensures known { AreKnown (terms_in terms.now)
            (slice_set (map sections_of held.now) place (sections_of result))
            self.new.known.items }
    {
        let menu = &terms.crowd.menus[place];
        if self.is_settled(menu, allowed, place) {
            return held[place];
        }
        let budget = raised(terms.crowd.budgets[place], terms.raise);
        let mine = &held[place];
        let bundle = demand_from(
            &mut self.workspace,
            menu,
            terms.prices,
            budget,
            allowed,
            mine,
        );
        self.known[place] = Some(*allowed);
        bundle
    }

    // Whether what the student at this place holds is known to be the best of sections that include
    // all the allowed ones of its menu.
    fn is_settled(&self, menu: &Menu, allowed: &SectionSet, place: usize) -> bool
        requires { place < length self.now.known.items }
        ensures { IsTrue result
            → IsSettled self.now.known.items place menu.now.places allowed.now }
    {
        match self.known[place] {
            Some(known) => none_new(menu.places(), &known, allowed),
            None => false,
        }
    }
}

// Whether each of these sections that is allowed is among the known ones.
fn none_new(places: &[Rated], known: &SectionSet, allowed: &SectionSet) -> bool
    requires { All (λ rated. rated.section.0 < MAX_SECTIONS) places.now }
    ensures { IsTrue result
        → All
        (λ rated. IsTrue
        (set.contains known.now rated.section.0
        || not (set.contains allowed.now rated.section.0)))
        places.now }
{
    places
        .iter()
        .all(|rated| is_old(rated.section, known, allowed))
}

fn is_old(section: SectionNo, known: &SectionSet, allowed: &SectionSet) -> bool
    requires { section.0 < MAX_SECTIONS }
    ensures { result
        ≡ (set.contains known.now section.0 || not (set.contains allowed.now section.0)) }
{
    known.has(section) || !allowed.has(section)
}
