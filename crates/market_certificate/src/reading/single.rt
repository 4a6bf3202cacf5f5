// Lines of one form, read off the front.
ghost use Rattle.std.specs.Prelude.{◌≡◌, ◌<◌, ◌≤◌, ◌^◌, ◌∷◌, [], All, IfOk, IfErr, codes};
ghost use Rattle.std.specs.Fmt.{decimal};
ghost use Rattle.market_units.specs.Name.{name_bytes};
ghost use Rattle.bundle_rules.specs.Bundles.{sections_of};
ghost use Rattle.market_certificate.specs.Due.{AmountForm, BundleForm, EndForm, ErrorForm, FinalForm, HasForm, HeadForm, OrderForm, Takes, UsedForm};
ghost use Rattle.market_certificate.specs.{Finding.OnDefect, Finding.StopsAt, Lines.spaced};
ghost use Rattle.market_certificate.specs.Publications.{IsBundleOf, IsProved, IsSession, IsUsed};
ghost use Rattle.market_certificate.specs.Tables.{Tables};
ghost use Rattle.market_certificate.specs.Texts.{amount_line, bundle_line, end_line, error_line, final_line, head_line, most_of, order_line, used_line};
ghost use Rattle.market_certificate.specs.Views.{proved_of, seen};

use crate::amounts::Amount;
use crate::reading::forms::{amount_of, error_of, final_of, is_head, order_of, proved_of, used_of};
use crate::reading::lines::Lines;
use crate::tables::TableNames;
use crate::{Proved, TextRefusal};
use bundle_rules::Bundle;
use market_units::{Name, Tokens};
use std::alloc::Global;

/// Reads the first line, which has the version: the lines behind it. A text of another version is
/// refused.
#[tactic(auto, using(crate::proofs::Steps::other_line))]
pub(crate) fn read_head<'t>(lines: Lines<'t>, tables: &TableNames) -> Result<Lines<'t>, TextRefusal>
    ensures line { IfOk result
        (λ left. Takes (head_line (seen tables.now) ∷ []) lines.entry.number lines.entry.rest.now
        left.number left.rest.now) }
    ensures defect { IfErr result
        (λ refusal. OnDefect refusal
        (StopsAt (HasForm (seen tables.now) HeadForm) lines.entry.number
        lines.entry.rest.now)) }
{
    let (line, left) = lines.next_line()?;
    if is_head(line, tables.version) {
        Ok(left)
    } else {
        Err(lines.out_of_form())
    }
}

/// Reads the order line: the order, and the lines behind it.
#[tactic(auto, using(crate::proofs::Steps::other_line))]
pub(crate) fn read_order<'t>(
    alloc: Global,
    lines: Lines<'t>,
) -> Result<(Vec<u8>, Lines<'t>), TextRefusal>
    ensures range { IfOk result (λ read. All IsSession read.0.items) }
    ensures line { IfOk result
        (λ read. Takes (order_line read.0.items ∷ []) lines.entry.number lines.entry.rest.now
        read.1.number read.1.rest.now) }
    ensures defect { IfErr result
        (λ refusal. (tables : Tables)
        → OnDefect refusal
        (StopsAt (HasForm tables OrderForm) lines.entry.number lines.entry.rest.now)) }
{
    let (line, left) = lines.next_line()?;
    match order_of(alloc, line)? {
        Some(order) => Ok((order, left)),
        None => Err(lines.out_of_form()),
    }
}

/// Reads the line of this name's amount: the amount, and the lines behind it.
#[tactic(auto, using(crate::proofs::Steps::other_line))]
pub(crate) fn read_amount<'t>(
    lines: Lines<'t>,
    kind: Amount,
    name: &Name,
) -> Result<(Tokens, Lines<'t>), TextRefusal>
    ensures range { IfOk result (λ read. read.0.0 ≤ most_of kind) }
    ensures line { IfOk result
        (λ read. Takes (amount_line kind (name_bytes name.now) read.0.0 ∷ []) lines.entry.number
        lines.entry.rest.now read.1.number read.1.rest.now) }
    ensures defect { IfErr result
        (λ refusal. (tables : Tables)
        → OnDefect refusal
        (StopsAt (HasForm tables (AmountForm kind (name_bytes name.now))) lines.entry.number
        lines.entry.rest.now)) }
{
    let (line, left) = lines.next_line()?;
    match amount_of(line, kind, name) {
        Some(tokens) => Ok((tokens, left)),
        None => Err(lines.out_of_form()),
    }
}

/// Reads the line of the clearing error: the error, and the lines behind it.
#[tactic(auto, using(crate::proofs::Steps::other_line))]
pub(crate) fn read_error<'t>(lines: Lines<'t>) -> Result<(u64, Lines<'t>), TextRefusal>
    ensures small { IfOk result (λ read. read.0 < 2 ^ 64) }
    ensures line { IfOk result
        (λ read. Takes (error_line read.0 ∷ []) lines.entry.number lines.entry.rest.now
        read.1.number read.1.rest.now) }
    ensures defect { IfErr result
        (λ refusal. (tables : Tables)
        → OnDefect refusal
        (StopsAt (HasForm tables ErrorForm) lines.entry.number lines.entry.rest.now)) }
{
    let (line, left) = lines.next_line()?;
    match error_of(line) {
        Some(error) => Ok((error, left)),
        None => Err(lines.out_of_form()),
    }
}

/// Reads the line of this student's bundle: the bundle with its tree, and the lines behind it.
#[tactic(auto, using(crate::proofs::Steps::other_line))]
pub(crate) fn read_proved<'t>(
    alloc: Global,
    lines: Lines<'t>,
    tables: &TableNames,
    name: &Name,
) -> Result<(Proved, Lines<'t>), TextRefusal>
    ensures range { IfOk result (λ read. IsProved (seen tables.now).sections (proved_of read.0)) }
    ensures line { IfOk result
        (λ read. Takes
        (bundle_line (seen tables.now).sections (name_bytes name.now) (proved_of read.0) ∷ [])
        lines.entry.number lines.entry.rest.now read.1.number read.1.rest.now) }
    ensures defect { IfErr result
        (λ refusal. OnDefect refusal
        (StopsAt (HasForm (seen tables.now) (BundleForm (name_bytes name.now)))
        lines.entry.number lines.entry.rest.now)) }
{
    let (line, left) = lines.next_line()?;
    let Some((bundle, tree)) = proved_of(tables, line, name) else {
        return Err(lines.out_of_form());
    };
    let tree = tree.to_vec(alloc)?;
    Ok((Proved { bundle, tree }, left))
}

/// Reads the line of this student's final bundle: the bundle, and the lines behind it.
#[tactic(auto, using(crate::proofs::Steps::other_line))]
pub(crate) fn read_final<'t>(
    lines: Lines<'t>,
    tables: &TableNames,
    name: &Name,
) -> Result<(Bundle, Lines<'t>), TextRefusal>
    ensures range { IfOk result
        (λ read. IsBundleOf (seen tables.now).sections (sections_of read.0)) }
    ensures line { IfOk result
        (λ read. Takes
        (final_line (seen tables.now).sections (name_bytes name.now) (sections_of read.0) ∷ [])
        lines.entry.number lines.entry.rest.now read.1.number read.1.rest.now) }
    ensures defect { IfErr result
        (λ refusal. OnDefect refusal
        (StopsAt (HasForm (seen tables.now) (FinalForm (name_bytes name.now)))
        lines.entry.number lines.entry.rest.now)) }
{
    let (line, left) = lines.next_line()?;
    match final_of(tables, line, name) {
        Some(bundle) => Ok((bundle, left)),
        None => Err(lines.out_of_form()),
    }
}

/// Reads the line of this section's seats: the used ones and all of them, and the lines behind it.
#[tactic(auto, using(crate::proofs::Steps::other_line))]
pub(crate) fn read_used<'t>(
    lines: Lines<'t>,
    name: &Name,
) -> Result<((u16, u16), Lines<'t>), TextRefusal>
    ensures range { IfOk result (λ read. IsUsed read.0) }
    ensures line { IfOk result
        (λ read. Takes (used_line (name_bytes name.now) read.0 ∷ []) lines.entry.number
        lines.entry.rest.now read.1.number read.1.rest.now) }
    ensures defect { IfErr result
        (λ refusal. (tables : Tables)
        → OnDefect refusal
        (StopsAt (HasForm tables (UsedForm (name_bytes name.now))) lines.entry.number
        lines.entry.rest.now)) }
{
    let (line, left) = lines.next_line()?;
    match used_of(line, name) {
        Some(seats) => Ok((seats, left)),
        None => Err(lines.out_of_form()),
    }
}

/// Reads the last line, `end`: what is left behind it, which is nothing in the text of a
/// publication.
#[tactic(auto, using(crate::proofs::Steps::other_line))]
pub(crate) fn read_end<'t>(lines: Lines<'t>) -> Result<Lines<'t>, TextRefusal>
    ensures line { IfOk result
        (λ left. Takes (end_line ∷ []) lines.entry.number lines.entry.rest.now left.number
        left.rest.now) }
    ensures defect { IfErr result
        (λ refusal. (tables : Tables)
        → OnDefect refusal
        (StopsAt (HasForm tables EndForm) lines.entry.number lines.entry.rest.now)) }
{
    let (line, left) = lines.next_line()?;
    if line == b"end".as_slice() {
        Ok(left)
    } else {
        Err(lines.out_of_form())
    }
}
