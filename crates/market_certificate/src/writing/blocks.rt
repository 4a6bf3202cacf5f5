// Blocks of lines, one for each name or turn, written behind a text.
ghost use Rattle.std.specs.Prelude.{◌≡◌, ◌<◌, ◌++◌, ◌∷◌, [], All, OnOk, length, map};
ghost use Rattle.market_units.specs.Name.{name_bytes};
ghost use Rattle.bundle_rules.specs.Bundles.{sections_of};
ghost use Rattle.market_certificate.specs.Lines.{joined};
ghost use Rattle.market_certificate.specs.Publications.{IsBundleOf, IsProved, IsTurn};
ghost use Rattle.market_certificate.specs.Texts.{amount_line, bundle_line, each_line, final_line, turn_line, used_line};
ghost use Rattle.market_certificate.specs.Views.{proved_of, turn_of};

use crate::amounts::Amount;
use crate::writing::lines::{put_amount, put_final, put_proved, put_turn, put_used};
use crate::{Proved, ProvedTurn};
use bundle_rules::Bundle;
use market_units::{Name, NoMemory, Tokens};

/// Puts one line for each name behind the text, with the amount at the same place.
pub(crate) fn put_amounts(
    text: &mut Vec<u8>,
    kind: Amount,
    names: &[Name],
    amounts: &[Tokens],
) -> Result<(), NoMemory>
    requires { length amounts.now ≡ length names.now }
    ensures { OnOk result
        (text.new.items
        ≡ text.old.items
        ++ joined
        (each_line (amount_line kind) (map name_bytes names.now)
        (map (λ tokens. tokens.0) amounts.now))) }
{
    'names: for (name, tokens) in names.iter().zip(amounts) {
        put_amount(text, kind, name, *tokens)?;
    }
    Ok(())
}

/// Puts one line for each student behind the text, with its bundle and the tree that proves it.
pub(crate) fn put_bundles(
    text: &mut Vec<u8>,
    sections: &[Name],
    names: &[Name],
    bundles: &[Proved],
) -> Result<(), NoMemory>
    requires count { length bundles.now ≡ length names.now }
    requires each { All (IsProved (map name_bytes sections.now)) (map proved_of bundles.now) }
    ensures { OnOk result
        (text.new.items
        ≡ text.old.items
        ++ joined
        (each_line (bundle_line (map name_bytes sections.now))
        (map name_bytes names.now) (map proved_of bundles.now))) }
{
    'names: for (name, proved) in names.iter().zip(bundles) {
        put_proved(text, sections, name, proved)?;
    }
    Ok(())
}

/// Puts one line for each turn of the aftermarket behind the text, in order.
pub(crate) fn put_turns(
    text: &mut Vec<u8>,
    students: &[Name],
    sections: &[Name],
    turns: &[ProvedTurn],
) -> Result<(), NoMemory>
    requires { All (IsTurn (map name_bytes students.now) (map name_bytes sections.now))
        (map turn_of turns.now) }
    ensures { OnOk result
        (text.new.items
        ≡ text.old.items
        ++ joined
        (map (turn_line (map name_bytes students.now) (map name_bytes sections.now))
        (map turn_of turns.now))) }
{
    'turns: for turn in turns {
        put_turn(text, students, sections, turn)?;
    }
    Ok(())
}

/// Puts one line for each student behind the text, with the bundle that it has at the end.
pub(crate) fn put_allocation(
    text: &mut Vec<u8>,
    sections: &[Name],
    names: &[Name],
    bundles: &[Bundle],
) -> Result<(), NoMemory>
    requires count { length bundles.now ≡ length names.now }
    requires each { All (IsBundleOf (map name_bytes sections.now)) (map sections_of bundles.now) }
    ensures { OnOk result
        (text.new.items
        ≡ text.old.items
        ++ joined
        (each_line (final_line (map name_bytes sections.now)) (map name_bytes names.now)
        (map sections_of bundles.now))) }
{
    'names: for (name, bundle) in names.iter().zip(bundles) {
        put_final(text, sections, name, bundle)?;
    }
    Ok(())
}

/// Puts one line for each section behind the text, with its used seats and all its seats.
pub(crate) fn put_seats(
    text: &mut Vec<u8>,
    names: &[Name],
    seats: &[(u16, u16)],
) -> Result<(), NoMemory>
    requires { length seats.now ≡ length names.now }
    ensures { OnOk result
        (text.new.items
        ≡ text.old.items ++ joined (each_line used_line (map name_bytes names.now) seats.now)) }
{
    'names: for (name, used) in names.iter().zip(seats) {
        put_used(text, name, *used)?;
    }
    Ok(())
}
