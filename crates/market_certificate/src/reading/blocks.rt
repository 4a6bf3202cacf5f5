// Blocks of lines, one for each name, read off the front.
ghost use Rattle.std.specs.Prelude.{◌≡◌, ◌≤◌, ◌++◌, List, IfOk, IfErr, map};
ghost use Rattle.market_units.specs.Name.{name_bytes};
ghost use Rattle.bundle_rules.specs.Bundles.{sections_of};
ghost use Rattle.market_certificate.specs.Due.{AmountForm, AreDue, BundleForm, Due, FinalForm, Takes, UsedForm, each_due};
ghost use Rattle.market_certificate.specs.Finding.{Finds, OnDefect};
ghost use Rattle.market_certificate.specs.Publications.{AreFor, IsBundleOf, IsProved, IsUsed};
ghost use Rattle.market_certificate.specs.Tables.{Tables};
ghost use Rattle.market_certificate.specs.Texts.{amount_line, bundle_line, each_line, final_line, most_of, used_line};
ghost use Rattle.market_certificate.specs.Views.{proved_of, seen};

use crate::amounts::Amount;
use crate::reading::lines::Lines;
use crate::reading::single::{read_amount, read_final, read_proved, read_used};
use crate::tables::TableNames;
use crate::{Proved, TextRefusal};
use bundle_rules::Bundle;
use market_units::{Name, Tokens};
use std::alloc::Global;

/// Reads one line of an amount for each name, in order: the amounts, and the lines behind them.
/// Else the first defect, or want of memory.
pub(crate) fn read_amounts<'t>(
    alloc: Global,
    lines: Lines<'t>,
    kind: Amount,
    names: &[Name],
) -> Result<(Vec<Tokens>, Lines<'t>), TextRefusal>
    ensures range { IfOk result
        (λ read. AreFor (map name_bytes names.now) (λ tokens. tokens ≤ most_of kind)
        (map (λ tokens. tokens.0) read.0.items)) }
    ensures lines { IfOk result
        (λ read. Takes
        (each_line (amount_line kind) (map name_bytes names.now)
        (map (λ tokens. tokens.0) read.0.items))
        lines.entry.number lines.entry.rest.now read.1.number read.1.rest.now) }
    ensures defect { IfErr result
        (λ refusal. (tables : Tables) (more : List Due)
        → OnDefect refusal
        (Finds
        (AreDue tables (each_due (AmountForm kind) (map name_bytes names.now) ++ more))
        lines.entry.number lines.entry.rest.now)) }
{
    let mut amounts = Vec::with_capacity(alloc, names.len())?;
    let mut left = lines;
    'names: for name in names {
        let (tokens, behind) = read_amount(left, kind, name)?;
        amounts.push(tokens)?;
        left = behind;
    }
    Ok((amounts, left))
}

/// Reads the line of each student, in file order, with its bundle and the tree that proves it:
/// these, and the lines behind them. Else the first defect, or want of memory.
pub(crate) fn read_bundles<'t>(
    alloc: Global,
    lines: Lines<'t>,
    tables: &TableNames,
) -> Result<(Vec<Proved>, Lines<'t>), TextRefusal>
    ensures range { IfOk result
        (λ read. AreFor (seen tables.now).students (IsProved (seen tables.now).sections)
        (map proved_of read.0.items)) }
    ensures lines { IfOk result
        (λ read. Takes
        (each_line (bundle_line (seen tables.now).sections) (seen tables.now).students
        (map proved_of read.0.items))
        lines.entry.number lines.entry.rest.now read.1.number read.1.rest.now) }
    ensures defect { IfErr result
        (λ refusal. (more : List Due)
        → OnDefect refusal
        (Finds
        (AreDue (seen tables.now)
        (each_due BundleForm (seen tables.now).students ++ more))
        lines.entry.number lines.entry.rest.now)) }
{
    let mut bundles = Vec::with_capacity(alloc, tables.students.len())?;
    let mut left = lines;
    'names: for name in &tables.students {
        let (proved, behind) = read_proved(alloc, left, tables, name)?;
        bundles.push(proved)?;
        left = behind;
    }
    Ok((bundles, left))
}

/// Reads the line of each student, in file order, with its final bundle: the bundles, and the lines
/// behind them. Else the first defect, or want of memory.
pub(crate) fn read_allocation<'t>(
    alloc: Global,
    lines: Lines<'t>,
    tables: &TableNames,
) -> Result<(Vec<Bundle>, Lines<'t>), TextRefusal>
    ensures range { IfOk result
        (λ read. AreFor (seen tables.now).students (IsBundleOf (seen tables.now).sections)
        (map sections_of read.0.items)) }
    ensures lines { IfOk result
        (λ read. Takes
        (each_line (final_line (seen tables.now).sections) (seen tables.now).students
        (map sections_of read.0.items))
        lines.entry.number lines.entry.rest.now read.1.number read.1.rest.now) }
    ensures defect { IfErr result
        (λ refusal. (more : List Due)
        → OnDefect refusal
        (Finds
        (AreDue (seen tables.now)
        (each_due FinalForm (seen tables.now).students ++ more))
        lines.entry.number lines.entry.rest.now)) }
{
    let mut bundles = Vec::with_capacity(alloc, tables.students.len())?;
    let mut left = lines;
    'names: for name in &tables.students {
        let (bundle, behind) = read_final(left, tables, name)?;
        bundles.push(bundle)?;
        left = behind;
    }
    Ok((bundles, left))
}

/// Reads the line of each section, in file order, with its used seats and all its seats: these
/// pairs, and the lines behind them. Else the first defect, or want of memory.
pub(crate) fn read_seats<'t>(
    alloc: Global,
    lines: Lines<'t>,
    names: &[Name],
) -> Result<(Vec<(u16, u16)>, Lines<'t>), TextRefusal>
    ensures range { IfOk result (λ read. AreFor (map name_bytes names.now) IsUsed read.0.items) }
    ensures lines { IfOk result
        (λ read. Takes (each_line used_line (map name_bytes names.now) read.0.items)
        lines.entry.number lines.entry.rest.now read.1.number read.1.rest.now) }
    ensures defect { IfErr result
        (λ refusal. (tables : Tables) (more : List Due)
        → OnDefect refusal
        (Finds (AreDue tables (each_due UsedForm (map name_bytes names.now) ++ more))
        lines.entry.number lines.entry.rest.now)) }
{
    let mut seats = Vec::with_capacity(alloc, names.len())?;
    let mut left = lines;
    'names: for name in names {
        let (used, behind) = read_used(left, name)?;
        seats.push(used)?;
        left = behind;
    }
    Ok((seats, left))
}
