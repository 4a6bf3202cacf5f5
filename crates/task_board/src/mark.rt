// Where a task stands.

/// Where a task stands, with the number of the seat that holds or held it.
#[derive(Clone, Copy, Debug, Drop, PartialEq, Eq)]
pub enum Mark<A> {
    /// Nobody drew it.
    Open,
    /// The seat drew it.
    Held(u16),
    /// The seat posted this answer.
    Filled(u16, A),
    /// The seat posted it when it was over.
    Spent(u16),
}
