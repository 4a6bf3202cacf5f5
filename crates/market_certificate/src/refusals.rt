// Why a text is not read.
ghost use Rattle.std.specs.Prelude.{◌≡◌};
ghost use Rattle.market_certificate.specs.declared.refusals.TextRefusal.TheVariants.{NoMemory};

use std::alloc::{AllocError, AllocFailed};

/// What is wrong with a line.
#[derive(Clone, Copy, Debug, PartialEq, Eq)]
pub enum LineFault {
    /// No whole line is left.
    Missing,
    /// The line is not of the form that is due.
    Form,
    /// Bytes stand behind the last line.
    Rest,
}

/// Why a text is not read.
#[derive(Clone, Copy, Debug, PartialEq, Eq)]
pub enum TextRefusal {
    /// The first defect, with the number of its line.
    Defect { line: u32, kind: LineFault },
    /// Memory was wanted and not given.
    NoMemory,
}

impl<T: Drop> From<AllocFailed<T>> for TextRefusal {
    ghost from_gives = { λ _ refusal. refusal ≡ NoMemory };

    fn from(_: AllocFailed<T>) -> Self {
        TextRefusal::NoMemory
    }
}

impl From<AllocError> for TextRefusal {
    ghost from_gives = { λ _ refusal. refusal ≡ NoMemory };

    fn from(_: AllocError) -> Self {
        TextRefusal::NoMemory
    }
}

impl From<market_units::NoMemory> for TextRefusal {
    ghost from_gives = { λ _ refusal. refusal ≡ NoMemory };

    fn from(_: market_units::NoMemory) -> Self {
        TextRefusal::NoMemory
    }
}
