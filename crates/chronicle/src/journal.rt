ghost use Rattle.std.specs.Prelude.{◌≡◌};

use crate::object::Object;
use std::marker::Model;

/// One step of a history: whose call it was, what was asked and what was answered.
#[derive(Clone, Copy, Drop)]
pub struct StepOf<Q, A> {
    /// The number of the seat that called.
    pub seat: u16,
    pub request: Q,
    pub reply: A,
}

/// A step of a history of calls on an `O`.
pub type Step<O> = StepOf<<O as Object>::Request, <O as Object>::Reply>;

/// The whole history of a closed chronicle, seen as the list of its steps.
/// `Chronicle::close` alone makes one.
#[derive(Drop)]
pub struct Journal<O: Object> {
    steps: Vec<Step<O>>,
}

impl<O: Object> Model for Journal<O> {
    ghost use Rattle.std.specs.Prelude.{List};
    ghost use Rattle.chronicle.specs.declared.journal.StepOf.{StepOf};

    ghost Value = { List (StepOf O.Request O.Reply) };

    ghost view = { λ journal. journal.steps.items };
}

impl<O: Object> Journal<O> {
    /// The journal of these steps. Only the close of a chronicle makes one.
    pub(crate) fn of(steps: Vec<Step<O>>) -> Self
        ensures { result ≡ steps.items }
    {
        Journal { steps }
    }

    /// The steps, in order.
    pub fn steps(&self) -> &[Step<O>]
        ensures { result.now ≡ self.now }
    {
        &self.steps
    }
}
