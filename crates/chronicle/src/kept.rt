use crate::journal::StepOf;

/// What the slot holds: the object with its journal.
#[derive(Drop)]
pub struct Kept<T, Q, A> {
    pub object: T,
    pub journal: Vec<StepOf<Q, A>>,
}
