// Numbers that must not be taken for each other, and the want of memory.
ghost use Rattle.std.specs.Prelude.{◌≡◌};
ghost use Rattle.market_units.specs.declared.units.NoMemory.{NoMemory};

use std::alloc::{AllocError, AllocFailed};

/// An amount of the market's money: a price or a budget.
#[derive(Clone, Copy, Debug, PartialEq, Eq, PartialOrd, Ord)]
pub struct Tokens(pub u32);

/// The ordinal of a section: its place in the catalogue, from 0.
#[derive(Clone, Copy, Debug, PartialEq, Eq, PartialOrd, Ord)]
pub struct SectionNo(pub u16);

/// The ordinal of a student: its place on the roll, from 0.
#[derive(Clone, Copy, Debug, PartialEq, Eq, PartialOrd, Ord)]
pub struct StudentNo(pub u16);

/// Memory was wanted and not given. It is the one answer that no clause ties to a cause.
#[derive(Clone, Copy, Debug, PartialEq, Eq)]
pub struct NoMemory;

impl From<AllocError> for NoMemory {
    fn from(_: AllocError) -> Self {
        NoMemory
    }
}

impl<T: Drop> From<AllocFailed<T>> for NoMemory {
    fn from(_: AllocFailed<T>) -> Self {
        NoMemory
    }
}
