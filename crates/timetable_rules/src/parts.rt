// The parts of a term.

/// The parts of a term in which a section runs.
#[derive(Clone, Copy, Debug, PartialEq, Eq)]
pub struct Parts {
    /// Whether it runs in the first half.
    pub first: bool,
    /// Whether it runs in the second half.
    pub second: bool,
}

impl Parts {
    /// The first half of the term alone.
    pub const FIRST_HALF: Parts = Parts {
        first: true,
        second: false,
    };

    /// The second half of the term alone.
    pub const SECOND_HALF: Parts = Parts {
        first: false,
        second: true,
    };

    /// Both halves.
    pub const WHOLE_TERM: Parts = Parts {
        first: true,
        second: true,
    };
}
