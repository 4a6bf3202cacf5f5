// What a worked term consists of.

/// A catalogue, a roll, and what is published with them.
#[derive(Clone, Copy)]
pub struct WorkedTerm {
    /// The text of the catalogue.
    pub catalogue: &'static [u8],
    /// The text of the roll.
    pub roll: &'static [u8],
    /// The published text.
    pub text: &'static str,
}

/// A term with the settings and the one session that its text was made of.
#[derive(Clone, Copy)]
pub struct WorkedMarket {
    /// The catalogue, the roll and the published text.
    pub term: WorkedTerm,
    /// The text of the settings.
    pub settings: &'static [u8],
    /// The lines of the session.
    pub session: &'static [u8],
}

/// A hall that opens with a term: the requests of its one session, and what is told of them.
#[derive(Clone, Copy)]
pub struct WorkedHall {
    /// The catalogue, the roll and the published text.
    pub term: WorkedTerm,
    /// The lines of the session.
    pub requests: &'static [u8],
    /// What is told.
    pub told: &'static str,
}
