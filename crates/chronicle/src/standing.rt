// What a seat is in contracts.
ghost use Rattle.std.specs.Prelude.{ℕ, List, Option};
ghost use Rattle.std.specs.Borrow.{ftrue};
ghost use Rattle.chronicle.specs.{declared.journal.StepOf.StepOf, declared.origin.Origin.Origin};

use std::marker::{Model, PhantomData};

/// What a seat tells. Contracts see a `Seat` as its `Standing`.
pub struct Standing<B, S, Q, A> {
    marker: PhantomData<(B, S, Q, A)>,
    /// The chronicle that it calls. Every seat has one.
    pub ghost chronicle: { Option (Origin B S) },
    pub ghost number: { ℕ },
    /// How many calls it may still make.
    pub ghost left: { ℕ },
    /// A beginning of the history, to its last call at least.
    pub ghost seen: { List (StepOf Q A) },
    /// Its calls, in order.
    pub ghost own: { List (StepOf Q A) },
}

impl<B, S, Q, A> Model for Standing<B, S, Q, A> {
    ghost also_owns = { λ _. ftrue };
}
