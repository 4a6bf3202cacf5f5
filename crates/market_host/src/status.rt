// What the program answers.
ghost use Rattle.std.specs.Prelude.{◌≡◌};
ghost use Rattle.market_host.specs.Statuses.{number_of};

use crate::Cause;
use certificate_checker::Finding;

/// How a call went. Inputs are the file words, numbered from 1 in word order.
#[derive(Clone, Copy, Debug, PartialEq, Eq)]
pub enum Status {
    /// The work is done, and its whole text was taken.
    Done,
    /// The words are none of the forms.
    Usage,
    /// This input could not be begun or read.
    ShelfFault { input: u16 },
    /// This input, the first such one, is not of its grammar, at its first bad row.
    Refused { input: u16, row: u32, cause: Cause },
    /// This input has more bytes than its limit, or brings the commands of all sessions above
    /// 200,000.
    TooLong { input: u16 },
    /// No prices are found: this least error exceeds what the settings accept.
    NoPrices { least: u64 },
    /// The sink did not take the whole text of the status that was to be answered.
    SinkFault,
    /// There was not enough memory.
    OutOfMemory,
    /// `check`, `explain`, `audit`: the text is not accepted; `hall`: no desk can open with it.
    /// This is the first finding.
    Found { finding: Finding },
    /// This word of the command line, the first such one, names no student or no section. Words are
    /// counted from 1, the form's own word being the first.
    Unknown { word: u16 },
}

impl Status {
    /// The number with which the process ends.
    pub fn number(&self) -> u8
        ensures { result ≡ number_of self.now }
    {
        match self {
            Status::Done => 0,
            Status::Usage => 1,
            Status::ShelfFault { .. } => 2,
            Status::Refused { .. } => 3,
            Status::TooLong { .. } => 4,
            Status::NoPrices { .. } => 5,
            Status::SinkFault => 6,
            Status::OutOfMemory => 7,
            Status::Found { .. } => 8,
            Status::Unknown { .. } => 9,
        }
    }
}
