// What seats know, which exists in proofs alone.
ghost use Rattle.std.specs.Prelude.{ℕ, List};
ghost use Rattle.std.specs.Borrow.{ftrue};
ghost use Rattle.chronicle.specs.{declared.journal.StepOf.StepOf, declared.view.Phase.Phase};

use std::marker::{Model, PhantomData};

/// Where a seat is in a call, with the ticket that it drew.
pub enum Phase {
    Idle,
    Waits(u64),
    InTurn(u64),
}

/// What a seat knows at the table. No value of it is made, and a spent seat has none.
pub struct View<B, S, Q, A> {
    marker: PhantomData<(B, S, Q, A)>,
    pub ghost base: { B },
    pub ghost opening: { S },
    // The allotments of all seats, by number.
    pub ghost allotments: { List ℕ },
    pub ghost number: { ℕ },
    // The calls that it may still make.
    pub ghost left: { ℕ },
    pub ghost phase: { Phase },
    // A beginning of the history.
    pub ghost seen: { List (StepOf Q A) },
    pub ghost own: { List (StepOf Q A) },
    // Of the seat that splits the others off: how many there are, and the allotments of those to
    // come.
    pub ghost made: { ℕ },
    pub ghost plan: { List ℕ },
    // Of the seats that it joined: each number with its calls, and what had been seen.
    pub ghost joined: { List (ℕ × List (StepOf Q A)) },
    pub ghost noted: { List (List (StepOf Q A)) },
}

impl<B, S, Q, A> Model for View<B, S, Q, A> {
    ghost also_owns = { λ _. ftrue };
}
