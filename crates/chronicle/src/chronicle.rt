ghost use Rattle.std.specs.Prelude.{◌≡◌, ◌<◌, ◌≤◌, ◌+◌, ◌^◌, ◌++◌, ◌∷◌, [], true, ℕ, Some, IfOk, All, Any, length, vec_len, slice_index, slice_index_or};
ghost use Rattle.market_units.specs.Beginnings.{BeginsWith};
ghost use Rattle.chronicle.specs.History.{state_after, IsLegal, calls_by, step_of, Extends};
ghost use Rattle.chronicle.specs.Seats.{origin, standing, new_seats, IsDealing, HasJoined};
ghost use Rattle.chronicle.specs.Turn.{IsWaiting, Serves};
ghost use Rattle.chronicle.specs.Views.{sum_of};

use crate::bells::Bells;
use crate::journal::{Journal, StepOf};
use crate::kept::Kept;
use crate::object::Object;
use crate::rule::{Deal, Draw, Key, Look, Pass, Turns};
use crate::seat::{Place, Seat};
use crate::sums::sum;
use crate::view::View;
use atomic_table::{Refused, Table};
use market_units::NoMemory;
use std::alloc::Global;
use std::hint;
use std::marker::Model;
use std::snapshot::Snapshot;
use std::sync::Wait;

// The word that says which ticket is served.
const SERVING: usize = 0;

// The word that says which ticket is drawn next.
const TICKET: usize = 1;

// How many tickets may be before one that is watched for, the one that is served among them.
const NEAR: u64 = 2;

// How often a thread looks before it sleeps, with the processor's pause between: about as long as a
// sleeping thread takes to wake, so that two threads which wait for each other do not fall asleep
// in turn.
const LOOKS: u32 = 2000;

// How many pauses of the processor a call stands back for another thread.
const PAUSES: u32 = 100;

// How often a call at most naps before it draws its ticket.
const NAPS: u32 = 1000;

/// An object that threads share, with the history of their calls. Calls take turns by ticket; a
/// thread that is not served yet sleeps at the bell of its ticket, which is rung when its turn
/// comes. Where more than two tickets are out, a thread first naps, a bounded number of times, and
/// then draws its ticket. Contracts see it as its `Origin`.
#[derive(Drop)]
pub struct Chronicle<O: Object> {
    bells: Bells,
    beds: Bells,
    table: Table<
        Kept<O, O::Request, O::Reply>,
        Option<View<O::Base, O::State, O::Request, O::Reply>>,
        Key<O>,
        Turns<O>,
        Global,
    >,
}

impl<O: Object> Model for Chronicle<O> {
    ghost use Rattle.std.specs.Prelude.{◌≡◌, ◌≤◌, length};
    ghost use Rattle.chronicle.specs.{Seats.origin, declared.origin.Origin.Origin};

    ghost Value = { Origin O.Base O.State };

    ghost view = { λ c. origin c.table.shared.table_id (O.base c.table.shared.key.object.value) (O.state c.table.shared.key.object.value) c.table.shared.key.allotments.value.items };

    ghost invariant = { λ c. (c.table.shared.table_id.words ≡ 2) × (c.table.shared.table_id.slots ≡ 1) × (1 ≤ length c.table.shared.key.allotments.value.items) × (c.bells ≡ length c.table.shared.key.allotments.value.items) };
}

impl<O: Object> Chronicle<O> {
    /// Begins a history of calls on the object, with one seat for each allotment, numbered from 0.
    /// Seat n may make as many calls as the n-th allotment says. An `Err` hands nothing back.
    pub fn start(
        alloc: Global,
        object: O,
        allotments: Vec<u64>,
    ) -> Result<(Chronicle<O>, Vec<Seat<O>>), NoMemory>
        requires seats { (1 ≤ vec_len allotments) × (vec_len allotments ≤ 65535) }
        requires room { sum_of allotments.items ≤ O.room object }
        ensures chronicle { IfOk result
            (λ r. (r.0.base ≡ O.base object) × (r.0.opening ≡ O.state object)
            × (r.0.allotments ≡ allotments.items)) }
        ensures count { IfOk result (λ r. vec_len r.1 ≡ vec_len allotments) }
        ensures seats { IfOk result
            (λ r. (n : ℕ) (d : _) → n < vec_len allotments
            → slice_index_or r.1.items n d
            ≡ standing (Some r.0) n (slice_index allotments.items n) [] []) }
    {
        let key = Key {
            object: Snapshot::of(&object),
            allotments: Snapshot::of(&allotments),
        };
        // A journal of more steps than a `u64` counts fits in no memory.
        let Some(calls) = sum(&allotments) else {
            return Err(NoMemory);
        };
        let count = allotments.len();
        let (chronicle, first) = Self::lay(alloc, object, &key, calls, count)?;
        let seats = chronicle.all_seats(alloc, first, count as u16)?;
        Ok((chronicle, seats))
    }

    // The table with the object, and its first seat.
    fn lay(
        alloc: Global,
        object: O,
        key: &Key<O>,
        calls: u64,
        count: usize,
    ) -> Result<(Chronicle<O>, Place<O>), NoMemory>
        requires object { key.now.object.value ≡ object }
        requires seats { 1 ≤ length key.now.allotments.value.items }
        requires count { count ≡ length key.now.allotments.value.items }
        requires calls { calls ≡ sum_of key.now.allotments.value.items }
        requires room { calls ≤ O.room object }
        ensures chronicle { IfOk result
            (λ r. r.0
            ≡ origin r.0.table (O.base key.now.object.value) (O.state key.now.object.value)
            key.now.allotments.value.items) }
        ensures own { IfOk result (λ r. r.1.table_id ≡ r.0.table) }
        ensures first { IfOk result (λ r. IsDealing r.0 1 r.1.me) }
    {
        let mut journal = Vec::new(alloc);
        journal.reserve(calls as usize)?;
        let bells = Bells::hang(alloc, count)?;
        let beds = Bells::hang(alloc, count)?;
        let mut slots = Vec::with_capacity(alloc, 1)?;
        slots.push_reserved(Kept { object, journal });
        match Table::new(alloc, &[0, 0], slots, key) {
            Ok((table, first)) => Ok((Chronicle { bells, beds, table }, first)),
            Err(Refused { slots: _ }) => Err(NoMemory),
        }
    }

    // The seats of all allotments: the first one, and those that are split off from it. The first
    // begins with all allotments, and is at rest with its own before it is handed out, so no keeper
    // of seats stays behind.
    fn all_seats(
        &self,
        alloc: Global,
        mut first: Place<O>,
        count: u16,
    ) -> Result<Vec<Seat<O>>, NoMemory>
        requires own { first.table_id ≡ self.now.table }
        requires dealing { IsDealing self.now 1 first.me }
        requires count { (1 ≤ count) × (count ≤ 65535) × (count ≡ length self.now.allotments) }
        ensures { IfOk result (λ seats. seats.items ≡ new_seats self.now 0 self.now.allotments) }
    {
        let mut seats = Vec::with_capacity(alloc, count as usize)?;
        for number in 1..count {
            seats.push_reserved(self.deal(&mut first, number));
        }
        let seat = Seat {
            number: 0,
            place: first,
        };
        seats.insert(0, seat)?;
        Ok(seats)
    }

    // Splits the seat with this number off the first one.
    fn deal(&self, first: &mut Place<O>, number: u16) -> Seat<O>
        requires own { first.old.table_id ≡ self.now.table }
        requires dealing { IsDealing self.now number first.old.me }
        requires next { (number < length self.now.allotments) × (number < 65535) }
        ensures own { (first.new.table_id ≡ first.old.table_id) × (first.new.id ≡ first.old.id) }
        ensures dealing { IsDealing self.now (number + 1) first.new.me }
        ensures seat { result
            ≡ standing (Some self.now) number (slice_index self.now.allotments number) [] [] }
    {
        let place = self.table.shared.split_seat::<Deal>(first);
        Seat { number, place }
    }

    /// Ends the history: with all its seats back, in any order, the object comes out, and the whole
    /// history.
    pub fn close(self, seats: Vec<Seat<O>>) -> (O, Journal<O>)
        requires chronicle { All (λ s. s.chronicle ≡ Some self) seats.items }
        requires all { (n : ℕ) → n < length self.allotments → Any (λ s. s.number ≡ n) seats.items }
        ensures legal { IsLegal O.sound O.after O.reply self.base self.opening result.1 }
        ensures seats { All (λ step. Any (λ s. s.number ≡ step.seat) seats.items) result.1 }
        ensures own { All (λ s. calls_by s.number result.1 ≡ s.own) seats.items }
        ensures seen { All (λ s. BeginsWith result.1 s.seen) seats.items }
        ensures others { All
            (λ s. (rest : _) → result.1 ≡ s.seen ++ rest → calls_by s.number rest ≡ [])
            seats.items }
        ensures base { O.base result.0 ≡ self.base }
        ensures last { O.state result.0 ≡ state_after O.after self.base self.opening result.1 }
    {
        let place = self.gather(seats);
        let Chronicle {
            bells: _,
            beds: _,
            table,
        } = self;
        let mut closed = table.close_with(place);
        let kept = closed.take(0);
        closed.free();
        let Kept { object, journal } = kept;
        (object, Journal::of(journal))
    }

    // Joins all seats.
    fn gather(&self, mut seats: Vec<Seat<O>>) -> Place<O>
        requires chronicle { All (λ s. s.chronicle ≡ Some self.now) seats.items }
        requires some { 1 ≤ vec_len seats }
        ensures own { result.table_id ≡ self.now.table }
        ensures joined { HasJoined self.now seats.items result.me }
    {
        let Some(last) = seats.pop() else {
            unreachable!()
        };
        let mut keeper = last.into_place();
        'seats: while let Some(seat) = seats.pop() {
            self.join(&mut keeper, seat);
        }
        keeper
    }

    // The keeper joins one more seat.
    fn join(&self, keeper: &mut Place<O>, seat: Seat<O>)
        requires own { keeper.old.table_id ≡ self.now.table }
        requires chronicle { seat.chronicle ≡ Some self.now }
        requires keeper { HasJoined self.now [] keeper.old.me }
        ensures own { (keeper.new.table_id ≡ keeper.old.table_id)
            × (keeper.new.id ≡ keeper.old.id) }
        ensures joined { (joined : _) → HasJoined self.now joined keeper.old.me
            → HasJoined self.now (seat ∷ joined) keeper.new.me }
    {
        self.table
            .shared
            .join_seat::<Deal>(keeper, seat.into_place());
    }

    /// Makes one call, and answers what the object replies at its turn. It may wait.
    pub fn call<R: Wait>(&self, rt: &R, seat: &mut Seat<O>, request: O::Request) -> O::Reply
        requires chronicle { seat.old.chronicle ≡ Some self.now }
        requires left { 1 ≤ seat.old.left }
        requires sound { O.sound self.now.base request ≡ true }
        ensures seen { Extends seat.old.seen seat.new.seen
            (step_of seat.old.number request result) }
        ensures legal { IsLegal O.sound O.after O.reply self.now.base self.now.opening
            seat.new.seen }
        ensures own { seat.new.own ≡ seat.old.own ++ step_of seat.old.number request result ∷ [] }
        ensures all_own { calls_by seat.old.number seat.new.seen ≡ seat.new.own }
        ensures others { (between : _)
            → seat.new.seen
            ≡ (seat.old.seen ++ between) ++ step_of seat.old.number request result ∷ []
            → calls_by seat.old.number between ≡ [] }
        ensures left { seat.new.left + 1 ≡ seat.old.left }
        ensures same { (seat.new.chronicle ≡ seat.old.chronicle)
            × (seat.new.number ≡ seat.old.number) }
    {
        let number = seat.number;
        let place = &mut seat.place;
        self.nap_while_many_wait(rt, number);
        self.give_way();
        let ticket = self.table.shared.fetch_add::<Draw>(place, TICKET, 1);
        self.wait(rt, place, ticket);
        let kept = place.slot_mut(&self.table.shared, 0);
        let reply = kept.object.step(number, request);
        kept.journal.push_reserved(StepOf {
            seat: number,
            request,
            reply,
        });
        // Gives the object back, and passes the turn on.
        let served = self.table.shared.fetch_add::<Pass>(place, SERVING, 1);
        self.ring(served.wrapping_add(1));
        reply
    }

    // Naps while more tickets are out than are watched for, a bounded number of times. Whoever
    // draws a ticket then would sleep until it is woken for its turn, and 64 threads on four
    // processors would be woken once for each call. As it is, few threads make their calls one
    // after another, and the others nap. Like `give_way` this is no step of the rule: turns go by
    // ticket as before.
    fn nap_while_many_wait<R: Wait>(&self, rt: &R, number: u16) {
        for _ in 0..NAPS {
            if self.tickets_out() <= NEAR {
                return;
            }
            self.beds.nap(rt, number);
        }
    }

    // How many tickets are drawn and not yet passed on, about.
    fn tickets_out(&self) -> u64 {
        let drawn = self.table.shared.peek(TICKET);
        drawn.wrapping_sub(self.table.shared.peek(SERVING))
    }

    // Stands back for a moment where another thread is in its turn and nobody waits. That thread
    // then makes its next calls with all that they touch at hand; two threads that do nothing but
    // call would else fetch it at each call. It looks by `peek`, which needs no seat and is no step
    // of the rule. Whatever it sees, the ticket is drawn after the pauses, so turns go by ticket as
    // before.
    fn give_way(&self) {
        if self.tickets_out() != 1 {
            return;
        }
        for _ in 0..PAUSES {
            hint::spin_loop();
        }
    }

    // Looks until the ticket is served.
    fn wait<R: Wait>(&self, rt: &R, place: &mut Place<O>, ticket: u64)
        requires own { place.old.table_id ≡ self.now.table }
        requires waits { IsWaiting ticket place.old.me }
        ensures own { (place.new.table_id ≡ place.old.table_id) × (place.new.id ≡ place.old.id) }
        ensures turn { (v : _) → place.old.me ≡ (Some v, [])
            → Serves O.base O.state O.room O.sound O.after O.reply v ticket place.new.me }
    {
        for _ in rt.forever() {
            if self.table.shared.load::<Look<O>>(place, SERVING) == ticket {
                return;
            }
            self.watch_or_sleep(rt, ticket);
        }
        unreachable!()
    }

    // Comes back when it may be the ticket's turn.
    fn watch_or_sleep<R: Wait>(&self, rt: &R, ticket: u64) {
        if !self.watch(ticket) {
            self.bells.sleep(rt, ticket);
        }
    }

    // Watches for a bounded time which ticket is served, where few are before this one. Answers
    // whether it is its turn.
    fn watch(&self, ticket: u64) -> bool {
        for _ in 0..LOOKS {
            let before = ticket.wrapping_sub(self.table.shared.peek(SERVING));
            if before == 0 || before > NEAR {
                return before == 0;
            }
            hint::spin_loop();
        }
        false
    }

    // Rings the bell of the next ticket if it was drawn. Who draws it after this look looks in its
    // turn after the turn was passed, so it finds itself served and does not sleep. All four accesses
    // (the add that passes, this look, the draw and the look of who draws) are sequentially
    // consistent: with a weaker order a wake-up could be lost. Tickets never reach 2^64, so equal
    // numbers are one ticket.
    fn ring(&self, next: u64) {
        if self.table.shared.peek(TICKET) != next {
            // Also where the next thread only watches: to note who sleeps gained nothing, and a
            // ring that is kept spares the next sleep.
            self.bells.ring(next);
        }
    }
}
