// Single lines, written behind a text.
ghost use Rattle.std.specs.Prelude.{◌≡◌, ◌<◌, ◌++◌, ◌∷◌, [], All, OnOk, codes, length, map};
ghost use Rattle.std.specs.Fmt.{decimal};
ghost use Rattle.market_units.specs.Name.{name_bytes};
ghost use Rattle.bundle_rules.specs.Bundles.{sections_of};
ghost use Rattle.market_certificate.specs.{Lines.spaced, Tables.name_at};
ghost use Rattle.market_certificate.specs.Texts.{amount_line, bundle_line, error_line, final_line, order_line, turn_line, used_line};
ghost use Rattle.market_certificate.specs.Views.{proved_of, turn_of};

use crate::amounts::{Amount, word_of};
use crate::writing::fields::{put_bundle_field, put_field, put_number_field, put_number_fields};
use crate::{Proved, ProvedTurn};
use bundle_rules::Bundle;
use market_units::{Name, NoMemory, Tokens};

/// Puts the order line behind the text: for each command the number of its session.
pub(crate) fn put_order(text: &mut Vec<u8>, order: &[u8]) -> Result<(), NoMemory>
    ensures { OnOk result (text.new.items ≡ text.old.items ++ order_line order.now ++ 10 ∷ []) }
{
    text.extend_from_slice(b"order")?;
    put_number_fields(text, order)?;
    text.push(b'\n')?;
    Ok(())
}

/// Puts the line of the clearing error behind the text. The error of the call is want of memory.
pub fn put_error(text: &mut Vec<u8>, error: u64) -> Result<(), NoMemory>
    ensures { OnOk result (text.new.items ≡ text.old.items ++ error_line error ++ 10 ∷ []) }
{
    text.extend_from_slice(b"error")?;
    put_number_field(text, error)?;
    text.push(b'\n')?;
    Ok(())
}

/// Puts the line of one amount behind the text: the word of its kind, the name, and the tokens.
pub(crate) fn put_amount(
    text: &mut Vec<u8>,
    kind: Amount,
    name: &Name,
    tokens: Tokens,
) -> Result<(), NoMemory>
    ensures { OnOk result
        (text.new.items
        ≡ text.old.items ++ amount_line kind (name_bytes name.now) tokens.0 ++ 10 ∷ []) }
{
    text.extend_from_slice(word_of(kind))?;
    put_field(text, name.bytes())?;
    put_number_field(text, u64::from(tokens.0))?;
    text.push(b'\n')?;
    Ok(())
}

/// Puts the line of a student's bundle behind the text, with the tree that proves it.
pub(crate) fn put_proved(
    text: &mut Vec<u8>,
    sections: &[Name],
    name: &Name,
    proved: &Proved,
) -> Result<(), NoMemory>
    requires { All (λ section. section < length sections.now) (sections_of proved.now.bundle) }
    ensures { OnOk result
        (text.new.items
        ≡ text.old.items
        ++ bundle_line (map name_bytes sections.now) (name_bytes name.now)
        (proved_of proved.now)
        ++ 10 ∷ []) }
{
    text.extend_from_slice(b"bundle")?;
    put_field(text, name.bytes())?;
    put_bundle_field(text, sections, &proved.bundle)?;
    put_field(text, &proved.tree)?;
    text.push(b'\n')?;
    Ok(())
}

/// Puts the line of the bundle behind the text that the student has at the end.
pub(crate) fn put_final(
    text: &mut Vec<u8>,
    sections: &[Name],
    name: &Name,
    bundle: &Bundle,
) -> Result<(), NoMemory>
    requires { All (λ section. section < length sections.now) (sections_of bundle.now) }
    ensures { OnOk result
        (text.new.items
        ≡ text.old.items
        ++ final_line (map name_bytes sections.now) (name_bytes name.now)
        (sections_of bundle.now)
        ++ 10 ∷ []) }
{
    text.extend_from_slice(b"final")?;
    put_field(text, name.bytes())?;
    put_bundle_field(text, sections, bundle)?;
    text.push(b'\n')?;
    Ok(())
}

/// Puts the line of a section's seats behind the text: how many are used, and how many there are.
pub(crate) fn put_used(text: &mut Vec<u8>, name: &Name, seats: (u16, u16)) -> Result<(), NoMemory>
    ensures { OnOk result
        (text.new.items ≡ text.old.items ++ used_line (name_bytes name.now) seats ++ 10 ∷ []) }
{
    text.extend_from_slice(b"used")?;
    put_field(text, name.bytes())?;
    put_number_field(text, u64::from(seats.0))?;
    put_number_field(text, u64::from(seats.1))?;
    text.push(b'\n')?;
    Ok(())
}

/// Puts the line of one turn of the aftermarket behind the text: the pass, the student, the bundle
/// that it chooses, and the tree that proves it.
pub(crate) fn put_turn(
    text: &mut Vec<u8>,
    students: &[Name],
    sections: &[Name],
    turn: &ProvedTurn,
) -> Result<(), NoMemory>
    requires student { turn.now.student.0 < length students.now }
    requires sections { All (λ section. section < length sections.now)
        (sections_of turn.now.bundle) }
    ensures { OnOk result
        (text.new.items
        ≡ text.old.items
        ++ turn_line (map name_bytes students.now) (map name_bytes sections.now)
        (turn_of turn.now)
        ++ 10 ∷ []) }
{
    text.extend_from_slice(b"turn")?;
    put_number_field(text, turn.pass)?;
    put_field(text, students[usize::from(turn.student.0)].bytes())?;
    put_bundle_field(text, sections, &turn.bundle)?;
    put_field(text, &turn.tree)?;
    text.push(b'\n')?;
    Ok(())
}

/// Puts the first line of a text of this version behind the text.
pub(crate) fn put_head(text: &mut Vec<u8>, version: u64) -> Result<(), NoMemory>
    ensures { OnOk result
        (text.new.items
        ≡ text.old.items ++ spaced (codes "course-match" ∷ decimal version ∷ []) ++ 10 ∷ []) }
{
    text.extend_from_slice(b"course-match")?;
    put_number_field(text, version)?;
    text.push(b'\n')?;
    Ok(())
}
