// Commands read from lines.
ghost use Rattle.std.specs.Prelude.{ℕ, ℤ, ◌≡◌, ◌≢◌, ◌<◌, ◌^◌, true, false, List, [], ◌∷◌, IfNone, IfSome, unsigned_abs, codes};
ghost use Rattle.std.specs.Fmt.{signed_decimal};
ghost use Rattle.market_units.specs.{Name.name_bytes, declared.names.Name.Name};
ghost use Rattle.utility_language.specs.Commands.{HasShortNumber, IsCommandOf, Spells, is_command, printed};
ghost use Rattle.utility_language.specs.{Words.words_of, declared.commands.Command.Command};

use crate::Command;
use crate::lines::first_word;
use crate::numbers::read_short;
use market_units::{Name, read_name};

/// The command of a line, without its line feed; `None` exactly where the line is blank or a
/// comment.
pub fn read_line(line: &[u8]) -> Option<Command>
    ensures none { IfNone result (is_command (words_of line.now) ≡ false) }
    ensures is_command { IfSome result (λ command. is_command (words_of line.now) ≡ true) }
    ensures command { IfSome result (IsCommandOf (words_of line.now)) }
    ensures short { IfSome result HasShortNumber }
    // What is printed is read as what it was.
    ensures printed { (command : Command) → HasShortNumber command → line.now ≡ printed command
        → result ≡ Some command }
{
    let (word, rest) = first_word(line)?;
    if word[0] == b'#' {
        return None;
    }
    Some(command_of(word, rest))
}

// The command of a line with this word in front.
fn command_of(word: &[u8], rest: &[u8]) -> Command
    ensures { IsCommandOf (word.now ∷ words_of rest.now) result }
{
    read_command(word, rest).unwrap_or(Command::Unreadable)
}

// The command that this word and the words of the rest spell.
fn read_command(word: &[u8], rest: &[u8]) -> Option<Command>
    ensures spelled { IfSome result (Spells (word.now ∷ words_of rest.now)) }
    ensures none { IfNone result
        ((command : Command) → ¬ Spells (word.now ∷ words_of rest.now) command) }
{
    match word {
        b"rate" => read_rate(rest),
        b"pair" => read_pair(rest),
        b"clear" => read_clear(rest),
        b"close" if first_word(rest).is_none() => Some(Command::Close),
        _ => None,
    }
}

fn read_rate(text: &[u8]) -> Option<Command>
    ensures spelled { IfSome result (Spells (codes "rate" ∷ words_of text.now)) }
    ensures none { IfNone result
        ((command : Command) → ¬ Spells (codes "rate" ∷ words_of text.now) command) }
{
    let (student, text) = read_name_word(text)?;
    let (section, text) = read_name_word(text)?;
    let n = read_last_number(text)?;
    Some(Command::Rate {
        student,
        section,
        n,
    })
}

fn read_pair(text: &[u8]) -> Option<Command>
    ensures spelled { IfSome result (Spells (codes "pair" ∷ words_of text.now)) }
    ensures none { IfNone result
        ((command : Command) → ¬ Spells (codes "pair" ∷ words_of text.now) command) }
{
    let (student, text) = read_name_word(text)?;
    let (first, text) = read_name_word(text)?;
    let (second, text) = read_name_word(text)?;
    let n = read_last_number(text)?;
    Some(Command::Pair {
        student,
        first,
        second,
        n,
    })
}

fn read_clear(text: &[u8]) -> Option<Command>
    ensures spelled { IfSome result (Spells (codes "clear" ∷ words_of text.now)) }
    ensures none { IfNone result
        ((command : Command) → ¬ Spells (codes "clear" ∷ words_of text.now) command) }
{
    let (student, text) = read_name_word(text)?;
    if first_word(text).is_some() {
        return None;
    }
    Some(Command::Clear { student })
}

/// The name that the first word of a line is, and the line behind it; `None` exactly where the
/// first word is no name, or there is none.
pub fn read_name_word(text: &[u8]) -> Option<(Name, &[u8])>
    ensures spelled { IfSome result
        (λ parts. words_of text.now ≡ name_bytes parts.0 ∷ words_of parts.1.now) }
    ensures none { IfNone result
        ((name : Name) (more : List (List ℕ)) → words_of text.now ≢ name_bytes name ∷ more) }
{
    let (word, rest) = first_word(text)?;
    let name = read_name(word)?;
    Some((name, rest))
}

// The number that is the only word left.
fn read_last_number(text: &[u8]) -> Option<i32>
    ensures short { IfSome result (λ n. unsigned_abs n < 10 ^ 6) }
    ensures spelled { IfSome result (λ n. words_of text.now ≡ signed_decimal n ∷ []) }
    ensures none { IfNone result
        ((n : ℤ) → unsigned_abs n < 10 ^ 6 → words_of text.now ≢ signed_decimal n ∷ []) }
{
    let (word, rest) = first_word(text)?;
    if first_word(rest).is_some() {
        return None;
    }
    read_short(word)
}
