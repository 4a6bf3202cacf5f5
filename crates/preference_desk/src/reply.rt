/// What the desk replies to a command: the first of these that applies, in this order.
#[derive(Clone, Copy, Debug, PartialEq, Eq)]
pub enum Reply {
    /// The line was none of the language's commands.
    Unreadable,
    /// A session has closed the desk.
    Closed,
    /// The student is not on the roll.
    NoStudent,
    /// A section is not in the catalogue.
    NoSection,
    /// The two sections of a pair are the same.
    SamePair,
    /// The rating is not from 0 to 100, or the adjustment not from -200 to 200.
    OutOfRange,
    /// The student has 60 ratings or 200 adjustments, and this would be one more.
    TooMany,
    /// The command was carried out.
    Done,
}
