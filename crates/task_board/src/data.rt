// What boards are in contracts.
ghost use Rattle.std.specs.Prelude.{List, ℕ};
ghost use Rattle.std.specs.Borrow.{ftrue};
ghost use Rattle.chronicle.specs.declared.journal.StepOf.{StepOf};
ghost use Rattle.task_board.specs.{declared.calls.Call.Call, declared.calls.Reply.Reply};
ghost use Rattle.task_board.specs.declared.mark.Mark.{Mark};

use std::marker::{Model, PhantomData};

/// What the steps of a board change: where each task stands. Contracts alone see it.
pub struct Progress<A> {
    marker: PhantomData<A>,
    pub ghost marks: { List (Mark A) },
}

impl<A> Model for Progress<A> {
    ghost also_owns = { λ _. ftrue };
}

/// A board without threads. Contracts see a `BoardState` as this.
pub struct StateData<B, A> {
    marker: PhantomData<(B, A)>,
    /// What no step changes.
    pub ghost terms: { B },
    /// Where each task stands.
    pub ghost marks: { List (Mark A) },
    /// How many calls there is room for.
    pub ghost room: { ℕ },
}

impl<B, A> Model for StateData<B, A> {
    ghost also_owns = { λ _. ftrue };
}

/// The answers of a closed board. Contracts see `Answers` as this.
pub struct AnswersData<B, A> {
    marker: PhantomData<(B, A)>,
    /// What no step changed.
    pub ghost terms: { B },
    /// Where each task stands at the end.
    pub ghost marks: { List (Mark A) },
    /// All calls on the board, in their order.
    pub ghost history: { List (StepOf (Call A) Reply) },
}

impl<B, A> Model for AnswersData<B, A> {
    ghost also_owns = { λ _. ftrue };
}
