// Requests read from lines.
ghost use Rattle.std.specs.Prelude.{◌≡◌, ◌≢◌, ◌<◌, ◌≤◌, true, false, [], ◌∷◌, Err, IfNone, IfOk, IfSome, OnOk, codes, length};
ghost use Rattle.market_units.specs.{Name.name_bytes, declared.names.Name.Name};
ghost use Rattle.utility_language.specs.Commands.{command_lines, is_command};
ghost use Rattle.utility_language.specs.Words.{words_of};
ghost use Rattle.utility_language.specs.declared.streams.StreamEnd.TheVariants.{TooMany};
ghost use Rattle.dropadd_desk.specs.declared.command.HallCommand.{HallCommand};
ghost use Rattle.dropadd_hall.specs.Requests.{AreRequests, IsRequestOf, Spells};

use dropadd_desk::HallCommand;
use market_units::Name;
use std::alloc::Global;
use utility_language::{StreamEnd, first_line, first_word, read_name_word};

/// The requests of the text, line by line. Blank lines and comments are none; a line that can't be
/// read is one. `TooMany` comes where there are more than `room`.
pub fn read_requests(alloc: Global, bytes: &[u8], room: u32) -> Result<Vec<HallCommand>, StreamEnd>
    ensures requests { IfOk result (λ requests. AreRequests bytes.now requests.items) }
    ensures fits { OnOk result (length (command_lines bytes.now) ≤ room) }
    ensures too_many { result ≡ Err TooMany → room < length (command_lines bytes.now) }
{
    let mut requests = Vec::new(alloc);
    let mut rest = bytes;
    while !rest.is_empty() {
        let (line, after) = first_line(rest);
        rest = after;
        let Some(request) = read_request(line) else {
            continue;
        };
        if requests.len() >= room as usize {
            return Err(StreamEnd::TooMany);
        }
        requests.push(request)?;
    }
    Ok(requests)
}

/// The request of a line, without its line feed; `None` exactly where the line is blank or a
/// comment.
pub fn read_request(line: &[u8]) -> Option<HallCommand>
    ensures none { IfNone result (is_command (words_of line.now) ≡ false) }
    ensures is_request { IfSome result (λ request. is_command (words_of line.now) ≡ true) }
    ensures request { IfSome result (IsRequestOf (words_of line.now)) }
{
    let (word, rest) = first_word(line)?;
    if word[0] == b'#' {
        return None;
    }
    Some(request_of(word, rest))
}

// The request of a line with this word in front.
fn request_of(word: &[u8], rest: &[u8]) -> HallCommand
    ensures { IsRequestOf (word.now ∷ words_of rest.now) result }
{
    read_spelled(word, rest).unwrap_or(HallCommand::Unreadable)
}

// The request that this word and the words of the rest spell.
fn read_spelled(word: &[u8], rest: &[u8]) -> Option<HallCommand>
    ensures spelled { IfSome result (Spells (word.now ∷ words_of rest.now)) }
    ensures none { IfNone result
        ((request : HallCommand) → ¬ Spells (word.now ∷ words_of rest.now) request) }
{
    let (student, section) = read_names(rest)?;
    match word {
        b"add" => Some(HallCommand::Add { student, section }),
        b"drop" => Some(HallCommand::Drop { student, section }),
        b"leave" => Some(HallCommand::Leave { student, section }),
        _ => None,
    }
}

// The two names that are all words of the text.
fn read_names(text: &[u8]) -> Option<(Name, Name)>
    ensures spelled { IfSome result
        (λ names. words_of text.now ≡ name_bytes names.0 ∷ name_bytes names.1 ∷ []) }
    ensures none { IfNone result
        ((first second : Name) → words_of text.now ≢ name_bytes first ∷ name_bytes second ∷ []) }
{
    let (first, text) = read_name_word(text)?;
    let (second, text) = read_name_word(text)?;
    if first_word(text).is_some() {
        return None;
    }
    Some((first, second))
}
