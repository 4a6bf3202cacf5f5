use market_units::{SectionNo, StudentNo};

/// What is replied to a request: the first of those of its kind that applies.
#[derive(Clone, Copy, Debug, PartialEq, Eq)]
pub enum HallReply {
    /// The line was no request.
    Unreadable,
    /// The student is not on the roll.
    NoStudent,
    /// The section is not in the catalogue.
    NoSection,
    /// The student holds the section that is wanted.
    Holding,
    /// The student waits already for the section that is wanted.
    Waiting,
    /// The section clashes with what the student holds: with this section, and with no lower one.
    Clash {
        with: SectionNo,
    },
    /// With the section the student's credits would pass the cap.
    Credits,
    /// With the section the student would have more sections than the cap allows.
    Courses,
    /// A seat was free, and the student holds it.
    Added,
    /// No seat was free: the student is the last to wait, behind so many.
    Queued {
        ahead: u16,
    },
    /// The student does not hold the section that is given up.
    NotHolding,
    /// The student gave the seat up. So many of those who waited longest were taken out, since the
    /// section does not fit them; the first whom it fits holds it now, and there is none where all
    /// were taken out.
    Dropped {
        lapsed: u16,
        next: Option<StudentNo>,
    },
    /// The student does not wait for the section.
    NotWaiting,
    /// The student waits no longer.
    Left,
}
