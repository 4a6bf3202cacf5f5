// What is held in the aftermarket.
ghost use Rattle.std.specs.Prelude.{◌≡◌, ◌≢◌, ◌<◌, ◌≤◌, ℕ, List, true, false, IfOk, length, map, slice_get, slice_set, Some};
ghost use Rattle.std.specs.FinSet as set;
ghost use Rattle.market_units.specs.Members.{has};
ghost use Rattle.bundle_rules.specs.Bundles.{sections_of};
ghost use Rattle.held_seats.specs.Choices.{may_choose};
ghost use Rattle.held_seats.specs.Floors.{AreBelow, IsFloor, held_on};

use crate::counts::{Filled, free_sections, freed, with_all};
use bundle_rules::Bundle;
use demand_api::{count_bundle, count_bundles, uncount_bundle};
use market_units::{MAX_SECTIONS, MAX_STUDENTS, NoMemory, SectionSet};
use std::alloc::Global;

/// What each student holds, how many students hold each section, and which sections are free.
#[derive(Drop)]
pub struct Floor {
    /// The bundle of each student, in file order.
    pub held: Vec<Bundle>,
    /// How many students hold each section, by its ordinal.
    pub used: Vec<u32>,
    /// The sections with fewer holders than seats.
    pub free: SectionSet,
}

impl Floor {
    /// The floor on which these bundles are held, where each section has so many seats. The one
    /// error is the want of memory.
    pub fn open(alloc: Global, seats: &[u16], bundles: &[Bundle]) -> Result<Floor, NoMemory>
        requires sections { length seats.now ≤ MAX_SECTIONS }
        requires few { length bundles.now ≤ MAX_STUDENTS }
        requires below { AreBelow (length seats.now) (map sections_of bundles.now) }
        ensures held { IfOk result (λ floor. held_on floor ≡ map sections_of bundles.now) }
        ensures floor { IfOk result (λ floor. IsFloor seats.now floor) }
    {
        let used = count_bundles(alloc, seats.len(), bundles)?;
        let filled = Filled {
            counts: &used,
            seats,
        };
        let free = free_sections(&filled);
        Ok(Floor {
            held: bundles.to_vec(alloc)?,
            used,
            free,
        })
    }

    /// The sections that the student at this place may choose: those that it holds and those that
    /// are free.
    pub fn choices(&self, place: usize) -> SectionSet
        requires place { place < length (held_on self.now) }
        requires below { AreBelow MAX_SECTIONS (held_on self.now) }
        ensures { (seats : List ℕ) → IsFloor seats self.now → (s : ℕ)
            → set.contains result s ≡ may_choose seats (held_on self.now) place s }
    {
        with_all(self.free, self.held[place].sections())
    }

    /// The student at this place holds the bundle from now on; whether it held another one.
    pub fn give(&mut self, seats: &[u16], place: usize, bundle: Bundle) -> bool
        requires place { place < length (held_on self.old) }
        requires sections { length seats.now ≤ MAX_SECTIONS }
        requires few { length (held_on self.old) ≤ MAX_STUDENTS }
        requires floor { IsFloor seats.now self.old }
        requires below { AreBelow (length seats.now) (held_on self.old) }
        requires within { (s : ℕ) → has (sections_of bundle) s ≡ true → s < length seats.now }
        ensures held { held_on self.new ≡ slice_set (held_on self.old) place (sections_of bundle) }
        ensures floor { IsFloor seats.now self.new }
        ensures quiet { result ≡ false
            → slice_get (held_on self.old) place ≡ Some (sections_of bundle) }
        ensures moved { result ≡ true
            → slice_get (held_on self.old) place ≢ Some (sections_of bundle) }
    {
        let before = self.held[place];
        if before == bundle {
            return false;
        }
        uncount_bundle(&mut self.used, before.sections());
        count_bundle(&mut self.used, bundle.sections());
        let filled = Filled {
            counts: &self.used,
            seats,
        };
        let free = freed(self.free, &filled, before.sections());
        self.free = freed(free, &filled, bundle.sections());
        self.held[place] = bundle;
        true
    }
}
