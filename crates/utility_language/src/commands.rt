// What a session can say to the desk.
use market_units::Name;

/// One command of a session. It names students and sections by their names, whether there are such
/// or not. A number `n` is from -999,999 to 999,999 as `read_line` gives it; what the desk takes is
/// said beside it.
#[derive(Clone, Copy, Debug, PartialEq, Eq)]
pub enum Command {
    /// The student rates the section with `n`; the desk takes 0 to 100.
    Rate {
        student: Name,
        section: Name,
        n: i32,
    },
    /// Both sections together are worth `n` more to the student; the desk takes -200 to 200.
    Pair {
        student: Name,
        first: Name,
        second: Name,
        n: i32,
    },
    /// The student takes all ratings and adjustments back.
    Clear {
        student: Name,
    },
    /// No session can change a preference from here on.
    Close,
    /// A line that is none of these.
    Unreadable,
}
