// One meeting of a section.

/// One weekly meeting of a section.
#[derive(Clone, Copy, Debug, PartialEq, Eq)]
pub struct Meeting {
    /// The day of the week, from Monday (0) to Sunday (6).
    pub day: u8,
    /// When it starts, in minutes of the day.
    pub start: u16,
    /// When it ends, in minutes of the day: after the start.
    pub end: u16,
}
