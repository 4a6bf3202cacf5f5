// The desk at which students drop and add sections.
ghost use Rattle.std.specs.Prelude.{ℕ, ◌≡◌, ◌<◌, ◌≤◌, ◌+◌, true, false, length, map, slice_index_or};
ghost use Rattle.std.proofs.Props.{props};
ghost use Rattle.bundle_rules.specs.{Bundles.sections_of, Sets.IsAscending-prop};
ghost use Rattle.market_units.specs.Members.{has};
ghost use Rattle.held_seats.specs.Floors.{AreBelow, IsFloor, held_on};
ghost use Rattle.dropadd_desk.specs.{Halls.IsHall, Market.IsMarket, Market.seats_in};

use crate::bundles::{with_section, without_section};
use crate::command::HallCommand;
use crate::lists::{WaitingLists, place_of};
use crate::reply::HallReply;
use crate::rules::MarketRules;
use bundle_rules::Bundle;
use course_catalog::Catalog;
use held_seats::Floor;
use market_units::{MAX_COURSES, Name, NoMemory, SectionNo, StudentNo};
use std::alloc::Global;
use student_roll::Roll;

/// The desk: what each student holds, and who waits for each section. All memory that it will need
/// was taken when it was prepared.
#[derive(Drop)]
pub struct HallDesk {
    rules: MarketRules,
    floor: Floor,
    lists: WaitingLists,
    left: u32,
    ghost is_market: { IsMarket rules } by { Prim.hlevel props },
    ghost counted: { IsFloor (seats_in rules) floor } by { Prim.hlevel props },
    ghost hall: { IsHall rules (record { held = held_on floor; waiting = lists.lists }) } by { Prim.hlevel (props, IsAscending-prop) },
    ghost wide: { lists.width ≡ length rules.roll.students },
}

impl HallDesk {
    ghost use Rattle.std.specs.Prelude.{Option, None, Some, All, IfOk, IfErr, position};
    ghost use Rattle.dropadd_desk.specs.Fits.{fits};
    ghost use Rattle.dropadd_desk.specs.HallView.{Becomes, HasOutcome, market_of, state_of, room_of};
    ghost use Rattle.dropadd_desk.specs.Halls.{opening};
    ghost use Rattle.dropadd_desk.specs.Market.{AreKnown, section_count, student_count, section_named, student_named};
    ghost use Rattle.dropadd_desk.specs.Step.{given, IsUnknown, held_by, pass_on, refusal, step, waiting_for};
    ghost use Rattle.dropadd_desk.specs.declared.command.HallCommand.TheVariants.{Add, Drop, Leave};
    ghost use Rattle.demand_api.specs.Crowds.{holders};

    /// A desk for the sections of the catalogue and the students of the roll, with room for so many
    /// requests: each student holds one of these bundles, in file order, and nobody waits.
    pub fn prepare(
        alloc: Global,
        catalog: &Catalog,
        roll: &Roll,
        final_bundles: &[Bundle],
        lines: u32,
    ) -> Result<HallDesk, NoMemory>
        requires each { length final_bundles.now ≡ length roll.now.students }
        requires within { AreBelow (length catalog.now.sections)
            (map sections_of final_bundles.now) }
        ensures market { IfOk result
            (λ desk. market_of desk ≡ record { catalog = catalog.now; roll = roll.now }) }
        ensures state { IfOk result
            (λ desk. state_of desk
            ≡ opening (record { catalog = catalog.now; roll = roll.now })
            (map sections_of final_bundles.now)) }
        ensures room { IfOk result (λ desk. room_of desk ≡ lines) }
    {
        let rules = MarketRules::copy(alloc, catalog, roll)?;
        let floor = Floor::open(alloc, rules.seats(), final_bundles)?;
        // Rows as wide as the roll is long: nobody stands in a list twice.
        let lists = WaitingLists::reserve(alloc, catalog.len(), roll.len())?;
        Ok(HallDesk {
            rules,
            floor,
            lists,
            left: lines,
        })
    }

    /// How many requests can still be taken.
    pub fn room(&self) -> u32
        ensures room { result ≡ room_of self.now }
        ensures hall { IsHall (market_of self.now) (state_of self.now) }
    {
        self.left
    }

    /// What the student holds.
    pub fn bundle(&self, student: StudentNo) -> Bundle
        requires { student.0 < student_count (market_of self.now) }
        ensures value { sections_of result ≡ held_by (state_of self.now) student.0 }
        ensures within { (s : ℕ) → has (sections_of result) s ≡ true
            → s < section_count (market_of self.now) }
    {
        self.floor.held[usize::from(student.0)]
    }

    /// Who waits for the section, the one who waits longest first.
    pub fn waiting(&self, section: SectionNo) -> &[u16]
        requires { section.0 < section_count (market_of self.now) }
        ensures waiting { result.now ≡ waiting_for (state_of self.now) section.0 }
        ensures students { All (λ i. i < student_count (market_of self.now)) result.now }
    {
        self.lists.items(usize::from(section.0))
    }

    /// How many students hold the section.
    pub fn holders(&self, section: SectionNo) -> u32
        requires { section.0 < section_count (market_of self.now) }
        ensures { result ≡ holders section.0 (state_of self.now).held }
    {
        self.floor.used[usize::from(section.0)]
    }

    /// Takes the request: replies to it, and carries it out where nothing stands against it.
    pub fn take(&mut self, request: HallCommand) -> HallReply
        requires { 1 ≤ room_of self.old }
        ensures market { market_of self.new ≡ market_of self.old }
        ensures taken { (result, state_of self.new)
            ≡ step (market_of self.old) (state_of self.old) request }
        ensures room { room_of self.new + 1 ≡ room_of self.old }
    {
        self.left -= 1;
        match request {
            HallCommand::Add { student, section } => self.add(&student, &section),
            HallCommand::Drop { student, section } => self.give_up(&student, &section),
            HallCommand::Leave { student, section } => self.leave(&student, &section),
            HallCommand::Unreadable => HallReply::Unreadable,
        }
    }

    // The student and the section of these names, or the reply to a name that is not known, the
    // student's first.
    fn find(&self, student: &Name, section: &Name) -> Result<(StudentNo, SectionNo), HallReply>
        ensures student { IfOk result
            (λ found. student_named (market_of self.now) student.now ≡ Some found.0.0) }
        ensures section { IfOk result
            (λ found. section_named (market_of self.now) section.now ≡ Some found.1.0) }
        ensures known { IfOk result
            (λ found. AreKnown (market_of self.now) found.0.0 found.1.0) }
        ensures unknown { IfErr result
            (IsUnknown (student_named (market_of self.now) student.now)
            (section_named (market_of self.now) section.now)) }
    {
        let Some(student) = self.rules.student(student) else {
            return Err(HallReply::NoStudent);
        };
        let Some(section) = self.rules.section(section) else {
            return Err(HallReply::NoSection);
        };
        Ok((student, section))
    }

    // The student of this name wants the section of this name.
    fn add(&mut self, student: &Name, section: &Name) -> HallReply
        ensures { HasOutcome self.old self.new result
            (step (market_of self.old) (state_of self.old) (Add student.now section.now)) }
    {
        let (student, section) = match self.find(student, section) {
            Ok(known) => known,
            Err(reply) => return reply,
        };
        if let Some(answer) = self.refusal(student, section) {
            return answer;
        }
        if self.floor.free.has(section) {
            self.give(student, section);
            return HallReply::Added;
        }
        let list = usize::from(section.0);
        let ahead = self.lists.items(list).len() as u16;
        self.lists.push(list, student.0);
        HallReply::Queued { ahead }
    }

    // What stands against it that the student has the section.
    fn refusal(&self, student: StudentNo, section: SectionNo) -> Option<HallReply>
        requires { AreKnown (market_of self.now) student.0 section.0 }
        ensures refusal { result
            ≡ refusal (market_of self.now) (state_of self.now) student.0 section.0 }
        ensures room { result ≡ None
            → length (held_by (state_of self.now) student.0) < MAX_COURSES }
    {
        let held = self.bundle(student);
        if held.has(section) {
            return Some(HallReply::Holding);
        }
        if self.waiting(section).contains(&student.0) {
            return Some(HallReply::Waiting);
        }
        self.rules.obstacle(student, section, &held)
    }

    // The student, who neither holds the section nor waits for it and has room for it, holds it
    // from now on.
    fn give(&mut self, student: StudentNo, section: SectionNo)
        requires known { AreKnown (market_of self.old) student.0 section.0 }
        requires new { has (held_by (state_of self.old) student.0) section.0 ≡ false }
        requires apart { has (waiting_for (state_of self.old) section.0) student.0 ≡ false }
        requires few { length (held_by (state_of self.old) student.0) < MAX_COURSES }
        ensures { Becomes self.old self.new
            (given (state_of self.old) (Some student.0) section.0) }
    {
        let place = usize::from(student.0);
        let bundle = with_section(&self.floor.held[place], section);
        self.floor.give(self.rules.seats(), place, bundle);
    }

    // The student of this name gives up the section of this name.
    fn give_up(&mut self, student: &Name, section: &Name) -> HallReply
        ensures { HasOutcome self.old self.new result
            (step (market_of self.old) (state_of self.old) (Drop student.now section.now)) }
    {
        let (student, section) = match self.find(student, section) {
            Ok(known) => known,
            Err(reply) => return reply,
        };
        let place = usize::from(student.0);
        let held = self.floor.held[place];
        if !held.has(section) {
            return HallReply::NotHolding;
        }
        let bundle = without_section(&held, section);
        self.floor.give(self.rules.seats(), place, bundle);
        self.pass_on(section)
    }

    // A seat of the section was given up: it goes to the first in the list whom it fits, and those
    // before are out of the list.
    fn pass_on(&mut self, section: SectionNo) -> HallReply
        requires { section.0 < section_count (market_of self.old) }
        ensures { HasOutcome self.old self.new result
            (pass_on (market_of self.old) (state_of self.old) section.0) }
    {
        let list = usize::from(section.0);
        let Some(place) = self.first_fitting(section) else {
            let lapsed = self.lists.items(list).len();
            self.lists.take_out(list, 0, lapsed);
            return HallReply::Dropped {
                lapsed: lapsed as u16,
                next: None,
            };
        };
        let next = StudentNo(self.lists.items(list)[place]);
        self.lists.take_out(list, 0, place + 1);
        self.give(next, section);
        HallReply::Dropped {
            lapsed: place as u16,
            next: Some(next),
        }
    }

    // The place in the section's list of the first whom it fits.
    fn first_fitting(&self, section: SectionNo) -> Option<usize>
        requires { section.0 < section_count (market_of self.now) }
        ensures { result
            ≡ position (λ i. fits (market_of self.now) i section.0 (held_by (state_of self.now) i))
            (waiting_for (state_of self.now) section.0) }
    {
        let waiting = self.waiting(section);
        for (place, student) in waiting.iter().enumerate() {
            let student = StudentNo(*student);
            let held = self.bundle(student);
            if self.rules.obstacle(student, section, &held).is_none() {
                return Some(place);
            }
        }
        None
    }

    // The student of this name waits no longer for the section of this name.
    fn leave(&mut self, student: &Name, section: &Name) -> HallReply
        ensures { HasOutcome self.old self.new result
            (step (market_of self.old) (state_of self.old) (Leave student.now section.now)) }
    {
        let (student, section) = match self.find(student, section) {
            Ok(known) => known,
            Err(reply) => return reply,
        };
        let list = usize::from(section.0);
        let Some(place) = place_of(self.lists.items(list), student.0) else {
            return HallReply::NotWaiting;
        };
        self.lists.take_out(list, place, place + 1);
        HallReply::Left
    }
}
