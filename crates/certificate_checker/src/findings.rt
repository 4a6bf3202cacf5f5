// What a check finds, and how it ends.
ghost use Rattle.std.specs.Prelude.{◌≡◌};
ghost use Rattle.certificate_checker.specs.declared.findings.CheckEnd.TheVariants as end;

use market_certificate::{LineFault, TextRefusal};
use market_units::{SectionNo, StudentNo};
use proof_tree::TreeDefect;

/// What is first wrong with a turn of the aftermarket, in the order in which it is looked for.
#[derive(Clone, Copy, Debug, PartialEq, Eq)]
pub enum TurnFault {
    /// No turn is due, or its pass or its student is not the due one.
    Order,
    /// The prices of the bundle sum to more than the raised budget.
    Unaffordable,
    /// The student may not take the bundle.
    Infeasible,
    /// A section of the bundle is neither held by the student nor free.
    Taken,
    /// The tree does not prove the bundle the best of what is offered: a better one exists, or the
    /// tree is not the canonical one.
    Tree(TreeDefect),
}

/// The first thing that is wrong with a published text, in the order in which it is looked for.
/// Each supposes that what is looked at before is right.
#[derive(Clone, Copy, Debug, PartialEq, Eq)]
pub enum Finding {
    /// The text is not that of a publication: its first defect.
    Text {
        /// The number of the line, from 1.
        line: u32,
        /// What is wrong with it.
        kind: LineFault,
    },
    /// The order does not merge the streams.
    Journal {
        /// The first entry, from 1, whose session is not given or has no command left; or one more
        /// than there are entries, where commands are left.
        at: u32,
    },
    /// The first student whose budget is not the one that the seed draws.
    Budget {
        /// The student.
        student: StudentNo,
    },
    /// The first student with a wrong bundle in the second stage: its prices sum to more than the
    /// budget.
    Unaffordable {
        /// The student.
        student: StudentNo,
    },
    /// The first student with a wrong bundle in the second stage: the student may not take it.
    Infeasible {
        /// The student.
        student: StudentNo,
    },
    /// The first student with a wrong bundle in the second stage: the tree does not prove the
    /// bundle the best of what is offered: a better one exists, or the tree is not the canonical
    /// one.
    Tree {
        /// The student.
        student: StudentNo,
        /// The first defect of the tree.
        defect: TreeDefect,
    },
    /// The first section that more students hold in the second stage than it has seats.
    Seats {
        /// The section.
        section: SectionNo,
        /// How many students hold it.
        used: u32,
        /// The catalogue's seats.
        seats: u16,
    },
    /// The first turn that is wrong.
    Turn {
        /// Its number among all turns, from 1.
        turn: u32,
        /// What is first wrong with it.
        fault: TurnFault,
    },
    /// The turns end before a whole pass without a change.
    NotQuiet {
        /// How many turns there are.
        turns: u32,
    },
    /// The first student whose final bundle is not the one after the last turn.
    Allocation {
        /// The student.
        student: StudentNo,
    },
    /// The first section whose used seats are not as many as it has final holders, or whose seats
    /// are not the catalogue's.
    Used {
        /// The section.
        section: SectionNo,
    },
}

/// Why a text is not accepted.
#[derive(Clone, Copy, Debug, PartialEq, Eq)]
pub enum CheckEnd {
    /// The first finding.
    Found(Finding),
    /// Memory was wanted and not given.
    NoMemory,
}

impl From<Finding> for CheckEnd {
    ghost from_gives = { λ finding result. result ≡ end.Found finding };

    fn from(finding: Finding) -> Self {
        CheckEnd::Found(finding)
    }
}

impl From<TextRefusal> for CheckEnd {
    ghost use Rattle.certificate_checker.specs.Findings.{end_of};

    ghost from_gives = { λ refusal result. result ≡ end_of refusal };

    fn from(refusal: TextRefusal) -> Self {
        match refusal {
            TextRefusal::Defect { line, kind } => CheckEnd::Found(Finding::Text { line, kind }),
            TextRefusal::NoMemory => CheckEnd::NoMemory,
        }
    }
}

impl From<market_units::NoMemory> for CheckEnd {
    ghost from_gives = { λ _ result. result ≡ end.NoMemory };

    fn from(_: market_units::NoMemory) -> Self {
        CheckEnd::NoMemory
    }
}

impl From<std::alloc::AllocError> for CheckEnd {
    ghost from_gives = { λ _ result. result ≡ end.NoMemory };

    fn from(_: std::alloc::AllocError) -> Self {
        CheckEnd::NoMemory
    }
}

impl<T: Drop> From<std::alloc::AllocFailed<T>> for CheckEnd {
    ghost from_gives = { λ _ result. result ≡ end.NoMemory };

    fn from(_: std::alloc::AllocFailed<T>) -> Self {
        CheckEnd::NoMemory
    }
}
