// The line that tells a finding, made without memory.
ghost use Rattle.std.specs.Prelude.{◌≡◌, ◌≤◌, ◌+◌, ◌++◌, length};
ghost use Rattle.std.specs.Fmt.{decimal};
ghost use Rattle.market_units.specs.Name.{name_bytes};
ghost use Rattle.market_certificate.specs.Tables.{tables_of};
ghost use Rattle.certificate_checker.specs.Words.{IsNamedIn, defect_words, fault_words, finding_line, finding_words, line_words};

use crate::{Finding, TurnFault};
use course_catalog::Catalog;
use market_certificate::LineFault;
use market_units::Name;
use proof_tree::TreeDefect;
use status_line::Line;
use student_roll::Roll;

/// The line that tells a finding on a text, in which students and sections stand by the names of
/// this roll and this catalogue. It takes no memory.
pub fn finding_line(catalog: &Catalog, roll: &Roll, finding: Finding) -> Line
    requires { IsNamedIn (tables_of catalog.now roll.now) finding }
    ensures { result ≡ finding_line (tables_of catalog.now roll.now) finding }
{
    let line = Line::empty().with(b"finding: ");
    with_finding(line, catalog, roll, finding).with(b"\n")
}

// The line with the words of a finding behind it.
fn with_finding(line: Line, catalog: &Catalog, roll: &Roll, finding: Finding) -> Line
    requires room { length line ≤ 20 }
    requires named { IsNamedIn (tables_of catalog.now roll.now) finding }
    ensures words { result ≡ line ++ finding_words (tables_of catalog.now roll.now) finding }
    ensures short { length result ≤ 120 }
{
    match finding {
        Finding::Text { line: number, kind } => {
            let line = with_count(line.with(b"line "), number).with(b" ");
            line.with(line_fault(kind))
        }
        Finding::Journal { at } => with_count(line.with(b"journal at "), at),
        Finding::Budget { student } => with_name(line.with(b"budget "), roll.name(student)),
        Finding::Unaffordable { student } => {
            with_name(line.with(b"student "), roll.name(student)).with(b" unaffordable")
        }
        Finding::Infeasible { student } => {
            with_name(line.with(b"student "), roll.name(student)).with(b" infeasible")
        }
        Finding::Tree { student, defect } => {
            let line = with_name(line.with(b"student "), roll.name(student)).with(b" ");
            with_defect(line, defect)
        }
        Finding::Seats {
            section,
            used,
            seats,
        } => {
            let line = with_name(line.with(b"seats "), catalog.name(section)).with(b" ");
            with_count(with_count(line, used).with(b" of "), u32::from(seats))
        }
        Finding::Turn { turn, fault } => {
            let line = with_count(line.with(b"turn "), turn).with(b" ");
            with_fault(line, fault)
        }
        Finding::NotQuiet { turns } => {
            with_count(line.with(b"not quiet after "), turns).with(b" turns")
        }
        Finding::Allocation { student } => with_name(line.with(b"final "), roll.name(student)),
        Finding::Used { section } => with_name(line.with(b"used "), catalog.name(section)),
    }
}

// What is wrong with a line, in one word.
fn line_fault(kind: LineFault) -> &'static [u8]
    ensures word { result.now ≡ line_words kind }
    ensures short { length result.now ≤ 7 }
{
    match kind {
        LineFault::Missing => b"missing",
        LineFault::Form => b"form",
        LineFault::Rest => b"rest",
    }
}

// The line with the words of what is wrong with a turn behind it.
fn with_fault(line: Line, fault: TurnFault) -> Line
    requires room { length line ≤ 60 }
    ensures words { result ≡ line ++ fault_words fault }
    ensures short { length result ≤ length line + 40 }
{
    match fault {
        TurnFault::Order => line.with(b"order"),
        TurnFault::Unaffordable => line.with(b"unaffordable"),
        TurnFault::Infeasible => line.with(b"infeasible"),
        TurnFault::Taken => line.with(b"taken"),
        TurnFault::Tree(defect) => with_defect(line, defect),
    }
}

// The line with the words of what is wrong with a tree behind it.
fn with_defect(line: Line, defect: TreeDefect) -> Line
    requires room { length line ≤ 80 }
    ensures words { result ≡ line ++ defect_words defect }
    ensures short { length result ≤ length line + 40 }
{
    match defect {
        TreeDefect::Syntax(at) => with_count(line.with(b"tree syntax at "), at),
        TreeDefect::NotClosed(at) => with_count(line.with(b"tree open at "), at),
        TreeDefect::Redundant(at) => with_count(line.with(b"tree redundant at "), at),
        TreeDefect::WrongLeaf(at) => with_count(line.with(b"tree leaf at "), at),
        TreeDefect::WrongBranch(at) => with_count(line.with(b"tree branch at "), at),
        TreeDefect::Rest(at) => with_count(line.with(b"tree rest at "), at),
    }
}

// The line with a count behind it.
fn with_count(line: Line, count: u32) -> Line
    requires room { length line ≤ 108 }
    ensures words { result ≡ line ++ decimal count }
    ensures short { length result ≤ length line + 20 }
{
    line.with_number(u64::from(count))
}

// The line with a name behind it.
fn with_name(line: Line, name: Name) -> Line
    requires room { length line ≤ 60 }
    ensures words { result ≡ line ++ name_bytes name }
    ensures short { length result ≤ length line + 32 }
{
    line.with(name.bytes())
}
