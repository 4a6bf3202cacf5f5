// What a line of each form says.
ghost use Rattle.std.specs.Prelude.{◌≡◌, ◌↔◌, ◌≤◌, ◌<◌, ◌≢◌, ◌∷◌, [], codes, IsTrue, All, IfOk, IfSome, IfNone};
ghost use Rattle.std.specs.Fmt.{decimal};
ghost use Rattle.market_certificate.specs.Due.{AmountForm, BundleForm, ErrorForm, FinalForm, HasForm, IsTurnLine, OrderForm, StartsTurn, UsedForm};
ghost use Rattle.market_certificate.specs.Lines.{spaced};
ghost use Rattle.market_certificate.specs.Publications.{IsBundleOf, IsProved, IsSession, IsTurn, IsUsed, Proved};
ghost use Rattle.market_certificate.specs.Tables.{Tables};
ghost use Rattle.market_certificate.specs.Texts.{amount_line, bundle_line, error_line, final_line, most_of, order_line, proved_text, turn_line, used_line};
ghost use Rattle.market_certificate.specs.Views.{seen};
ghost use Rattle.market_units.specs.Name.{name_bytes};
ghost use Rattle.bundle_rules.specs.Bundles.{sections_of};

use crate::amounts::{Amount, most_of, word_of};
use crate::reading::cuts::{behind, behind_field, cut};
use crate::reading::values::{bundle_of, is_tree, sessions_of};
use crate::tables::TableNames;
use bundle_rules::Bundle;
use market_units::{MAX_SEATS, Name, NoMemory, StudentNo, Tokens, read_number};
use std::alloc::Global;

/// Whether this is the first line of a text of this version: `course-match` and the number.
pub(crate) fn is_head(line: &[u8], version: u64) -> bool
    ensures yes { IsTrue result → line.now ≡ spaced (codes "course-match" ∷ decimal version ∷ []) }
    ensures no { line.now ≡ spaced (codes "course-match" ∷ decimal version ∷ []) → IsTrue result }
{
    match behind_field(line, b"course-match") {
        Some(digits) => match read_number(digits, version) {
            Some(found) => found == version,
            None => false,
        },
        None => false,
    }
}

/// The order that an order line tells: for each command the number of its session, from 1 to 64.
/// `None` where it is no such line.
pub(crate) fn order_of(alloc: Global, line: &[u8]) -> Result<Option<Vec<u8>>, NoMemory>
    ensures range { IfOk result (λ read. IfSome read (λ order. All IsSession order.items)) }
    ensures line { IfOk result (λ read. IfSome read (λ order. line.now ≡ order_line order.items)) }
    ensures none { IfOk result
        (λ read. IfNone read ((tables : Tables) → ¬ HasForm tables OrderForm line.now)) }
{
    if line == b"order".as_slice() {
        return Ok(Some(Vec::new(alloc)));
    }
    match behind_field(line, b"order") {
        Some(numbers) => sessions_of(alloc, numbers),
        None => Ok(None),
    }
}

/// The amount that the line tells of this name, in tokens, at most `most_of`. `None` where it is
/// not a line of this kind for this name.
pub(crate) fn amount_of(line: &[u8], kind: Amount, name: &Name) -> Option<Tokens>
    ensures range { IfSome result (λ tokens. tokens.0 ≤ most_of kind) }
    ensures line { IfSome result
        (λ tokens. line.now ≡ amount_line kind (name_bytes name.now) tokens.0) }
    ensures none { IfNone result
        ((tables : Tables) → ¬ HasForm tables (AmountForm kind (name_bytes name.now)) line.now) }
{
    let rest = behind_field(line, word_of(kind))?;
    let digits = behind_field(rest, name.bytes())?;
    let tokens = read_number(digits, u64::from(most_of(kind)))?;
    Some(Tokens(tokens as u32))
}

/// The clearing error that an error line tells. `None` where it is no such line.
pub(crate) fn error_of(line: &[u8]) -> Option<u64>
    ensures line { IfSome result (λ error. line.now ≡ error_line error) }
    ensures none { IfNone result ((tables : Tables) → ¬ HasForm tables ErrorForm line.now) }
{
    let digits = behind_field(line, b"error")?;
    read_number(digits, u64::MAX)
}

/// The bundle that the line tells of this student, and the bytes of its tree. `None` where it is no
/// bundle line of this student; whether the tree proves the bundle is not looked at.
pub(crate) fn proved_of<'t>(
    tables: &TableNames,
    line: &'t [u8],
    name: &Name,
) -> Option<(Bundle, &'t [u8])>
    ensures range { IfSome result
        (λ read. IsProved (seen tables.now).sections
        (record { bundle = sections_of read.0; tree = read.1.now })) }
    ensures line { IfSome result
        (λ read. line.now
        ≡ bundle_line (seen tables.now).sections (name_bytes name.now)
        (record { bundle = sections_of read.0; tree = read.1.now })) }
    ensures none { IfNone result
        (¬ HasForm (seen tables.now) (BundleForm (name_bytes name.now)) line.now) }
{
    let rest = behind_field(line, b"bundle")?;
    let proved = behind_field(rest, name.bytes())?;
    proved_in(tables, proved)
}

// A bundle and its tree.
fn proved_in<'t>(tables: &TableNames, bytes: &'t [u8]) -> Option<(Bundle, &'t [u8])>
    ensures range { IfSome result
        (λ read. IsProved (seen tables.now).sections
        (record { bundle = sections_of read.0; tree = read.1.now })) }
    ensures bytes { IfSome result
        (λ read. bytes.now
        ≡ proved_text (seen tables.now).sections
        (record { bundle = sections_of read.0; tree = read.1.now })) }
    ensures none { IfNone result
        ((proved : Proved) → IsProved (seen tables.now).sections proved
        → bytes.now ≢ proved_text (seen tables.now).sections proved) }
{
    let (names, tree) = cut(bytes, b' ')?;
    let bundle = bundle_of(tables, names)?;
    if !is_tree(tree) {
        return None;
    }
    Some((bundle, tree))
}

/// Whether the line begins with `turn` and a space. Then it is read as a turn, and refused if it is
/// none.
pub(crate) fn starts_turn(line: &[u8]) -> bool
    ensures { IsTrue result ↔ StartsTurn line.now }
{
    behind_field(line, b"turn").is_some()
}

/// The pass, the student, the bundle and the tree that a turn line tells. `None` where it is no
/// such line, or names no student of the roll.
pub(crate) fn turn_in<'t>(
    tables: &TableNames,
    line: &'t [u8],
) -> Option<(u64, StudentNo, Bundle, &'t [u8])>
    ensures range { IfSome result
        (λ read. IsTurn (seen tables.now).students (seen tables.now).sections
        (record {
          pass = read.0;
          student = read.1.0;
          bundle = sections_of read.2;
          tree = read.3.now;
        })) }
    ensures line { IfSome result
        (λ read. line.now
        ≡ turn_line (seen tables.now).students (seen tables.now).sections
        (record {
          pass = read.0;
          student = read.1.0;
          bundle = sections_of read.2;
          tree = read.3.now;
        })) }
    ensures none { IfNone result (¬ IsTurnLine (seen tables.now) line.now) }
{
    let rest = behind_field(line, b"turn")?;
    let (digits, behind_pass) = cut(rest, b' ')?;
    let pass = read_number(digits, u64::MAX)?;
    let (name, proved) = cut(behind_pass, b' ')?;
    let student = tables.student(name)?;
    let (bundle, tree) = proved_in(tables, proved)?;
    if pass == 0 {
        return None;
    }
    Some((pass, student, bundle, tree))
}

/// The final bundle that the line tells of this student. `None` where it is no such line.
pub(crate) fn final_of(tables: &TableNames, line: &[u8], name: &Name) -> Option<Bundle>
    ensures range { IfSome result
        (λ bundle. IsBundleOf (seen tables.now).sections (sections_of bundle)) }
    ensures line { IfSome result
        (λ bundle. line.now
        ≡ final_line (seen tables.now).sections (name_bytes name.now) (sections_of bundle)) }
    ensures none { IfNone result
        (¬ HasForm (seen tables.now) (FinalForm (name_bytes name.now)) line.now) }
{
    let rest = behind_field(line, b"final")?;
    let names = behind_field(rest, name.bytes())?;
    bundle_of(tables, names)
}

/// The used seats and all seats that the line tells of this section, each at most 9,999. `None`
/// where it is no such line.
pub(crate) fn used_of(line: &[u8], name: &Name) -> Option<(u16, u16)>
    ensures range { IfSome result IsUsed }
    ensures line { IfSome result (λ seats. line.now ≡ used_line (name_bytes name.now) seats) }
    ensures none { IfNone result
        ((tables : Tables) → ¬ HasForm tables (UsedForm (name_bytes name.now)) line.now) }
{
    let rest = behind_field(line, b"used")?;
    let numbers = behind_field(rest, name.bytes())?;
    let (first, second) = cut(numbers, b' ')?;
    let used = read_number(first, u64::from(MAX_SEATS))?;
    let seats = read_number(second, u64::from(MAX_SEATS))?;
    Some((used as u16, seats as u16))
}
