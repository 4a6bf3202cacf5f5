use market_units::Name;

/// One request of a student. It names the student and the section by their names, whether there are
/// such or not.
#[derive(Clone, Copy, Debug, PartialEq, Eq)]
pub enum HallCommand {
    /// The student wants the section.
    Add { student: Name, section: Name },
    /// The student gives the section up.
    Drop { student: Name, section: Name },
    /// The student waits for the section no longer.
    Leave { student: Name, section: Name },
    /// A line that is none of these.
    Unreadable,
}
