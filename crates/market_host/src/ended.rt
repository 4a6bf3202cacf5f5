// How a call ends whose inputs are in order.
ghost use Rattle.std.specs.Prelude.{◌≡◌, IfErr, IfOk};
ghost use Rattle.certificate_checker.specs.{Findings.OnFound, Words.IsNamedIn};
ghost use Rattle.market_certificate.specs.Tables.{tables_of};
ghost use Rattle.market_host.specs.Endings.{IsToldEnd, bytes_of};

use crate::Status;
use certificate_checker::{CheckEnd, finding_line};
use course_catalog::Catalog;
use market_units::NoMemory;
use status_line::Line;
use student_roll::Roll;

/// How a call ends whose inputs were read and are in order: its status, and what it writes.
#[derive(Drop)]
pub struct Ended {
    pub status: Status,
    pub output: Output,
}

/// What a call writes.
#[derive(Drop)]
pub enum Output {
    /// A text of any length.
    Text(Vec<u8>),
    /// One line, which was made without memory.
    Line(Line),
}

impl Output {
    /// The bytes to write.
    pub fn as_bytes(&self) -> &[u8]
        ensures { result.now ≡ bytes_of self.now }
    {
        match self {
            Output::Text(text) => text.as_slice(),
            Output::Line(line) => line.as_bytes(),
        }
    }
}

/// How a call ends that has looked at a published text: with what it was told of it, or with the
/// line of the first finding on it.
pub fn told_end(
    catalog: &Catalog,
    roll: &Roll,
    told: Result<Vec<u8>, CheckEnd>,
) -> Result<Ended, NoMemory>
    requires { IfErr told (λ end. OnFound end (IsNamedIn (tables_of catalog.now roll.now))) }
    ensures { IfOk result (IsToldEnd (tables_of catalog.now roll.now) told) }
{
    match told {
        Ok(text) => Ok(Ended {
            status: Status::Done,
            output: Output::Text(text),
        }),
        Err(CheckEnd::Found(finding)) => Ok(Ended {
            status: Status::Found { finding },
            output: Output::Line(finding_line(catalog, roll, finding)),
        }),
        Err(CheckEnd::NoMemory) => Err(NoMemory),
    }
}
