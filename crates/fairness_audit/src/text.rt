// The whole text.
ghost use Rattle.std.specs.Prelude.{◌≡◌, ◌≤◌, ◌++◌, IfOk, OnOk, length, map};
ghost use Rattle.market_certificate.specs.Lines.{joined};
ghost use Rattle.course_catalog.specs.Sections.{section_names};
ghost use Rattle.student_roll.specs.Students.{names_of};
ghost use Rattle.fairness_audit.specs.Texts.{AreRowsAmong, IsRowAmong, audit_text, part_lines, row_lines};
ghost use Rattle.fairness_audit.specs.Views.{row_of};

use crate::counts::{Counts, sum_up};
use crate::lines::{put_counts, put_first};
use crate::row::EnvyRow;
use course_catalog::Catalog;
use market_units::{NoMemory, StudentNo};
use std::alloc::Global;
use student_roll::Roll;

/// The text of an audit: for each student of the roll in file order a line with its three counts,
/// and where it envies someone a line with what it sees in the bundle of the first; behind them the
/// sums of the counts. First come the rows of the settled bundles of the second stage, then those
/// of the last ones. Each has a row for each student, which names students of the roll and sections
/// of the catalogue. `NoMemory` is the only error.
pub fn put_rows(
    alloc: Global,
    catalog: &Catalog,
    roll: &Roll,
    settled: &[EnvyRow],
    last: &[EnvyRow],
) -> Result<Vec<u8>, NoMemory>
    requires settled { AreRowsAmong (length roll.now.students) (length catalog.now.sections)
        (map row_of settled.now) }
    requires last { AreRowsAmong (length roll.now.students) (length catalog.now.sections)
        (map row_of last.now) }
    ensures { IfOk result
        (λ text. text.items
        ≡ audit_text (names_of roll.now.students) (section_names catalog.now.sections)
        (map row_of settled.now) (map row_of last.now)) }
{
    let mut text = Vec::new(alloc);
    put_part(&mut text, catalog, roll, b"settled", settled)?;
    put_part(&mut text, catalog, roll, b"final", last)?;
    Ok(text)
}

// Puts the rows of one part behind the text, and their sums.
fn put_part(
    text: &mut Vec<u8>,
    catalog: &Catalog,
    roll: &Roll,
    part: &[u8],
    rows: &[EnvyRow],
) -> Result<(), NoMemory>
    requires { AreRowsAmong (length roll.now.students) (length catalog.now.sections)
        (map row_of rows.now) }
    ensures { OnOk result
        (text.new.items
        ≡ text.old.items
        ++ joined
        (part_lines part.now (names_of roll.now.students)
        (section_names catalog.now.sections) (map row_of rows.now))) }
{
    'students: for student in 0..roll.len() {
        let name = roll.name(StudentNo(student));
        let row = rows[usize::from(student)];
        put_row(text, catalog, roll, part, name.bytes(), row)?;
    }
    put_counts(text, part, b"total", sum_up(rows))?;
    Ok(())
}

// Puts the lines of one row behind the text.
fn put_row(
    text: &mut Vec<u8>,
    catalog: &Catalog,
    roll: &Roll,
    part: &[u8],
    name: &[u8],
    row: EnvyRow,
) -> Result<(), NoMemory>
    requires { IsRowAmong (length roll.now.students) (length catalog.now.sections) (row_of row) }
    ensures { OnOk result
        (text.new.items
        ≡ text.old.items
        ++ joined
        (row_lines part.now (names_of roll.now.students)
        (section_names catalog.now.sections) name.now (row_of row))) }
{
    put_counts(text, part, name, Counts::of(&row))?;
    put_first(text, catalog, roll, row.first)?;
    Ok(())
}
