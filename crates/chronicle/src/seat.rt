ghost use Rattle.std.specs.Prelude.{◌≡◌};

use crate::kept::Kept;
use crate::object::Object;
use crate::view::View;
use std::marker::Model;

/// A seat at the table, which has the view of a seat of the chronicle.
pub(crate) type Place<O> = atomic_table::Seat<
    Kept<O, <O as Object>::Request, <O as Object>::Reply>,
    Option<
        View<
            <O as Object>::Base,
            <O as Object>::State,
            <O as Object>::Request,
            <O as Object>::Reply,
        >,
    >,
>;

/// The right to make a number of calls on a chronicle, which one thread uses at a time.
/// Contracts see it as its `Standing`.
#[derive(Drop)]
pub struct Seat<O: Object> {
    pub(crate) number: u16,
    pub(crate) place: Place<O>,
}

impl<O: Object> Model for Seat<O> {
    ghost use Rattle.chronicle.specs.Seats.{standing_of, IsAtRest};
    ghost use Rattle.chronicle.specs.declared.standing.Standing.{Standing};

    // Its chronicle is optional: a spent seat has no view, and no base fits every object. With a
    // snapshot of the key beside the view, the kit found no proof that a seat is `Send`.
    ghost Value = { Standing O.Base O.State O.Request O.Reply };

    ghost view = { λ s. standing_of s.place.table_id s.number s.place.me.0 };

    ghost invariant = { λ s. IsAtRest s.number s.place.me };
}

impl<O: Object> Seat<O> {
    ghost use Rattle.chronicle.specs.{History.calls_by, Seats.IsAtRest, Seats.standing_of};

    /// The seat's number, from 0. Its own calls are all that it has seen of itself.
    pub fn number(&self) -> u16
        ensures number { result ≡ self.now.number }
        ensures all_own { calls_by self.now.number self.now.seen ≡ self.now.own }
    {
        self.number
    }

    /// The seat's place at the table. The seat is given up for it.
    pub(crate) fn into_place(self) -> Place<O>
        ensures at_rest { IsAtRest self.number result.me }
        ensures tells { standing_of result.table_id self.number result.me.0 ≡ self }
    {
        self.place
    }
}
