// The columns of a roll.
ghost use Rattle.std.specs.Prelude.{◌≡◌, ◌+◌, ◌≤◌, IfOk};
ghost use Rattle.csv.specs.Records.{fields_of};
ghost use Rattle.student_roll.specs.{Rolls.carry_in, Rolls.roll_rules, Students.IsListed};

use crate::RollRefusal;
use crate::entry::Entry;
use csv::ByteRecord;
use market_units::{MAX_BASE, MAX_COURSES, MAX_CREDITS, MAX_STUDENTS, Name};
use table_records::{Fault, Table, number_in};

/// The rules of a roll's records.
pub(crate) struct RollRules;

impl Table for RollRules {
    type Row = Entry;

    type Refusal = RollRefusal;

    ghost rules = { λ _. roll_rules };

    ghost name_of = { λ student. student.name };

    ghost is_row = { IsListed };

    fn headers(&self) -> &[&[&[u8]]] {
        &[
            &[b"student", b"budget", b"credits", b"courses"],
            &[b"student", b"budget", b"credits", b"courses", b"carry"],
        ]
    }

    fn most(&self) -> Option<(usize, RollRefusal)> {
        Some((usize::from(MAX_STUDENTS), RollRefusal::TooMany))
    }

    fn knows(&self, _name: &Name) -> bool {
        true
    }

    fn refuse(&self, fault: Fault) -> RollRefusal {
        match fault {
            Fault::Header => RollRefusal::Header,
            Fault::Fields { row } => RollRefusal::Fields { row },
            Fault::Name { row } => RollRefusal::Name { row, column: 1 },
            Fault::Repeated { row, earlier } => RollRefusal::Repeated { row, earlier },
        }
    }

    fn read_row(
        &self,
        version: usize,
        row: u32,
        name: Name,
        fields: &ByteRecord,
    ) -> Result<Entry, RollRefusal> {
        let base = number_in(fields, 2, u64::from(MAX_BASE)).ok_or(RollRefusal::Number {
            row,
            column: 2,
        })?;
        let credits = number_in(fields, 3, u64::from(MAX_CREDITS)).ok_or(RollRefusal::Number {
            row,
            column: 3,
        })?;
        let courses = number_in(fields, 4, u64::from(MAX_COURSES)).ok_or(RollRefusal::Number {
            row,
            column: 4,
        })?;
        let carry = carry_in(version, row, base as u32, fields)?;
        Ok(Entry {
            name,
            base: base as u32,
            credits: credits as u16,
            courses: courses as u8,
            carry,
        })
    }
}

// The tokens that a row's student carries over, in a table of this version: with the base at most
// `MAX_BASE`.
fn carry_in(version: usize, row: u32, base: u32, fields: &ByteRecord) -> Result<u32, RollRefusal>
    requires { base ≤ MAX_BASE }
    ensures value { result ≡ carry_in version row base (fields_of fields.now) }
    ensures fresh { IfOk result (λ carry. version ≡ 1 → carry ≡ 0) }
    ensures tokens { IfOk result (λ carry. base + carry ≤ MAX_BASE) }
{
    if version == 1 {
        return Ok(0);
    }
    let carry = number_in(fields, 5, u64::from(MAX_BASE - base)).ok_or(RollRefusal::Number {
        row,
        column: 5,
    })?;
    Ok(carry as u32)
}
