// What an audit tells of a student.
ghost use Rattle.std.specs.Prelude.{◌≡◌, ◌≤◌};
ghost use Rattle.fairness_audit.specs.Tallies.{no_envy, with_sight};
ghost use Rattle.fairness_audit.specs.Views.{row_of, seen_of};

use bundle_rules::Bundle;
use market_units::{MAX_STUDENTS, SectionNo, StudentNo};

/// An envied student, and what is seen in its bundle.
#[derive(Clone, Copy, Debug, PartialEq, Eq)]
pub struct Seen {
    /// The envied student.
    pub student: StudentNo,
    /// The best bundle out of that student's one, where no section costs anything.
    pub bundle: Bundle,
    /// The lowest section of that student's bundle that ends the envy if it is taken out; `None`
    /// where no single one does.
    pub without: Option<SectionNo>,
}

/// Whom a student envies. Each count counts a student once: at most 1,999.
#[derive(Clone, Copy, Debug, PartialEq, Eq)]
pub struct EnvyRow {
    /// How many students it envies whose unraised budget is at most its own.
    pub lower: u16,
    /// How many it envies whose unraised budget is greater.
    pub higher: u16,
    /// How many it envies even if any one section were taken out of their bundle.
    pub beyond: u16,
    /// The first in file order whom it envies.
    pub first: Option<Seen>,
}

impl EnvyRow {
    /// The row of a student who envies nobody.
    pub(crate) fn empty() -> EnvyRow
        ensures { row_of result ≡ no_envy }
    {
        EnvyRow {
            lower: 0,
            higher: 0,
            beyond: 0,
            first: None,
        }
    }

    /// The row with one more envied student, behind those that it counts. `is_lower` tells whether
    /// the envy is lower: the budget of the other is at most the own one.
    pub(crate) fn with(self, seen: Seen, is_lower: bool) -> EnvyRow
        requires few { (self.lower ≤ MAX_STUDENTS) × (self.higher ≤ MAX_STUDENTS)
            × (self.beyond ≤ MAX_STUDENTS) }
        ensures { row_of result ≡ with_sight (row_of self) (seen_of seen) is_lower }
    {
        EnvyRow {
            lower: self.lower + u16::from(is_lower),
            higher: self.higher + u16::from(!is_lower),
            beyond: self.beyond + u16::from(seen.without.is_none()),
            first: self.first.or(Some(seen)),
        }
    }
}
