// Turns and passes.
ghost use Rattle.std.specs.Prelude.{◌≡◌, ◌<◌, ◌≤◌, IfOk, All, length, map};
ghost use Rattle.bundle_rules.specs.{Bundles.sections_of, Demand.price_in, Places.places_from};
ghost use Rattle.demand_api.specs.{Asking.AreSectionPrices, Crowds.demands, Crowds.holders};
ghost use Rattle.demand_api.specs.Views.{data_of};
ghost use Rattle.aftermarket_stage.specs.After.{terms_in, terms_of, turns_of};
ghost use Rattle.aftermarket_stage.specs.HeldChoices.{Stands};
ghost use Rattle.aftermarket_stage.specs.{Passes.IsAftermarket, Runs.HaveTurned};
ghost use Rattle.aftermarket_stage.specs.Turns.{after_turns};
ghost use Rattle.held_seats.specs.Choices.{AreHeldWithin};
ghost use Rattle.held_seats.specs.Floors.{held_on};

use crate::choosing::Chooser;
use crate::terms::Terms;
use crate::{After, Turn};
use budget_draw::after_order;
use bundle_rules::Bundle;
use demand_api::Crowd;
use held_seats::Floor;
use market_units::{MAX_RAISE, MAX_STUDENTS, NoMemory, StudentNo, Tokens};
use std::alloc::Global;

// What the aftermarket works in: who seeks the best bundles, what is held, and the turns so far.
#[derive(Drop)]
struct Stage {
    chooser: Chooser,
    floor: Floor,
    turns: Vec<Turn>,
}

/// The aftermarket of a crowd. In a pass each student has one turn, by budgets before any raise,
/// the greatest first, and of equal budgets the lowest ordinal first. At a turn a section is free
/// when fewer students hold it than it has seats, and the student's bundle becomes the best of held
/// and free sections within the student's budget raised by `raise` percent, at the same prices. The
/// first pass without a change is the last; without students there is none.
///
/// There are one seat number and one price for each section, each price at most 1,000,001, and a
/// raise of at most 50. The bundles are what each student takes at the prices, in file order, and
/// no section has more of them than seats. There is no limit of passes: each but the last brings
/// some student a bundle that it prefers. The one error is the want of memory.
pub fn aftermarket(
    alloc: Global,
    crowd: &Crowd,
    seats: &[u16],
    prices: &[Tokens],
    bundles: &[Bundle],
    raise: u8,
) -> Result<After, NoMemory>
    requires seats { length seats.now ≡ crowd.now.sections }
    requires prices { AreSectionPrices crowd.now.sections prices.now }
    requires demands { map sections_of bundles.now
        ≡ demands (data_of crowd.now) (price_in prices.now) }
    requires within { AreHeldWithin crowd.now.sections seats.now (map sections_of bundles.now) }
    requires raise { raise ≤ MAX_RAISE }
    ensures turns { IfOk result
        (λ after. IsAftermarket (terms_of crowd.now seats.now prices.now raise)
        (map sections_of bundles.now) (turns_of after.turns.items) after.passes) }
    ensures bundles { IfOk result
        (λ after. map sections_of after.bundles.items
        ≡ after_turns (map sections_of bundles.now) (turns_of after.turns.items)) }
    ensures used { IfOk result
        (λ after. after.used.items
        ≡ map (λ s. holders s (map sections_of after.bundles.items))
        (places_from 0 crowd.now.sections)) }
    ensures within { IfOk result
        (λ after. AreHeldWithin crowd.now.sections seats.now
        (map sections_of after.bundles.items)) }
{
    let terms = Terms {
        crowd,
        seats,
        prices,
        raise,
    };
    let order = after_order(alloc, &crowd.budgets)?;
    let chooser = Chooser::reserve(alloc, bundles.len())?;
    let floor = Floor::open(alloc, seats, bundles)?;
    let turns = Vec::new(alloc);
    let mut stage = Stage {
        chooser,
        floor,
        turns,
    };
    let mut passes = 0;
    let mut changed = !crowd.menus.is_empty();
    while changed {
        passes += 1;
        changed = stage.run_pass(&terms, &order, passes)?;
    }
    stage.close(alloc, passes)
}

impl Stage {
    // One pass of turns in this order, one of each student; whether it changed a bundle.
    fn run_pass(&mut self, terms: &Terms, order: &[StudentNo], pass: u64) -> Result<bool, NoMemory>
        requires order { All (λ student. student.0 < length terms.now.crowd.now.menus.items)
            order.now }
        requires stands { Stands (terms_in terms.now) self.old.floor
            self.old.chooser.known.items }
        ensures turns { IfOk result
            (λ changed. HaveTurned (terms_in terms.now) pass
            (map (λ student. student.0) order.now) (held_on self.old.floor)
            (held_on self.new.floor) self.old.turns.items self.new.turns.items changed) }
        ensures stands { IfOk result
            (λ changed. Stands (terms_in terms.now) self.new.floor
            self.new.chooser.known.items) }
    {
        let mut changed = false;
        for student in order {
            let place = usize::from(student.0);
            let allowed = self.floor.choices(place);
            let held = &self.floor.held;
            let bundle = self.chooser.best_at(terms, &allowed, held, place);
            self.turns.push(Turn {
                pass,
                student: *student,
                allowed,
                bundle,
            })?;
            changed |= self.floor.give(terms.seats, place, bundle);
        }
        Ok(changed)
    }

    // What the turns come to. Each count is of students, so it fits 16 bits.
    fn close(self, alloc: Global, passes: u64) -> Result<After, NoMemory>
        requires { All (λ count. count ≤ MAX_STUDENTS) self.floor.used.items }
        ensures turns { IfOk result (λ after. after.turns.items ≡ self.turns.items) }
        ensures passes { IfOk result (λ after. after.passes ≡ passes) }
        ensures bundles { IfOk result (λ after. after.bundles.items ≡ self.floor.held.items) }
        ensures used { IfOk result (λ after. after.used.items ≡ self.floor.used.items) }
    {
        let turns = self.turns;
        let floor = self.floor;
        let mut used = Vec::with_capacity(alloc, floor.used.len())?;
        for count in &floor.used {
            used.push(*count as u16)?;
        }
        Ok(After {
            turns,
            passes,
            bundles: floor.held,
            used,
        })
    }
}
