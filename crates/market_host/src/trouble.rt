// What stops a call.
ghost use Rattle.std.specs.Prelude.{◌≡◌};
ghost use Rattle.market_host.specs.Statuses.{status_of};
ghost use Rattle.market_host.specs.declared.trouble.Trouble.TheVariants as trouble;

use crate::{Cause, Status};
use market_units::NoMemory;
use std::alloc::AllocFailed;

/// Why a call is stopped before its work is done: by one of its inputs, or for want of memory.
#[derive(Clone, Copy)]
pub enum Trouble {
    /// This input could not be begun or read.
    ShelfFault { input: u16 },
    /// This input is not of its grammar, at its first bad row.
    Refused { input: u16, row: u32, cause: Cause },
    /// This input has more bytes than its limit, or brings the commands above theirs.
    TooLong { input: u16 },
    /// There was not enough memory.
    OutOfMemory,
}

impl Trouble {
    /// The status with which the call ends.
    pub fn status(&self) -> Status
        ensures { result ≡ status_of self.now }
    {
        match *self {
            Trouble::ShelfFault { input } => Status::ShelfFault { input },
            Trouble::Refused { input, row, cause } => Status::Refused { input, row, cause },
            Trouble::TooLong { input } => Status::TooLong { input },
            Trouble::OutOfMemory => Status::OutOfMemory,
        }
    }
}

impl From<NoMemory> for Trouble {
    ghost from_gives = { λ _ stop. stop ≡ trouble.OutOfMemory };

    fn from(_: NoMemory) -> Self {
        Trouble::OutOfMemory
    }
}

impl<T: Drop> From<AllocFailed<T>> for Trouble {
    ghost from_gives = { λ _ stop. stop ≡ trouble.OutOfMemory };

    fn from(_: AllocFailed<T>) -> Self {
        Trouble::OutOfMemory
    }
}
