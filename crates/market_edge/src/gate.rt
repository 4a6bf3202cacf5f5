// Places where a test can hold a session or a worker.

/// Where a session or a worker stands, with its number from 1.
#[derive(Clone, Copy, Debug, PartialEq, Eq)]
pub enum Stop {
    /// Before the first command of a session.
    SessionStart(u16),
    /// After an answered command of a session.
    SessionCall(u16),
    /// Before the first task of a worker.
    WorkerStart(u16),
    /// After an answered post of a worker.
    WorkerCall(u16),
}

/// Is passed at each stop, by the thread that stands there. Nothing is promised of a pass: it may
/// wait, and no answer depends on it.
pub trait Gate {
    fn pass(&self, stop: Stop);
}

/// Lets everything pass at once.
#[derive(Clone, Copy, Debug)]
pub struct OpenGate;

impl Gate for OpenGate {
    fn pass(&self, _stop: Stop) {}
}

/// A gate of any type, which threads may share.
pub type AnyGate<'g> = &'g (dyn Gate + Sync);

/// Passes a gate of any type, for a call that takes a gate by its type. Its one form is
/// `Passed<AnyGate>`.
#[derive(Drop)]
pub struct Passed<G> {
    pub gate: G,
}

impl Gate for Passed<AnyGate<'_>> {
    fn pass(&self, stop: Stop) {
        self.gate.pass(stop);
    }
}
