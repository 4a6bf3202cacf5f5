// Single lines, written behind a text.
ghost use Rattle.std.specs.Prelude.{◌≡◌, ◌∷◌, ◌++◌, [], OnOk};
ghost use Rattle.std.specs.Fmt.{decimal};
ghost use Rattle.market_units.specs.Name.{name_bytes};
ghost use Rattle.utility_language.specs.Commands.{HasShortNumber, printed};
ghost use Rattle.preference_text.specs.Lines.{adjustment_line, entry_line, rating_line, reply_word};
ghost use Rattle.preference_text.specs.Texts.{HasShortCommand};

use market_units::{Name, NoMemory, put_number};
use preference_desk::{Entry, Reply};
use utility_language::{Command, print_command};

/// Puts the line of a journal entry behind the text: the session, the reply and the command. The
/// only error is that memory was not given.
pub(crate) fn put_entry(text: &mut Vec<u8>, entry: &Entry) -> Result<(), NoMemory>
    requires { HasShortCommand entry.now }
    ensures { OnOk result (text.new.items ≡ text.old.items ++ entry_line entry.now) }
{
    text.extend_from_slice(b"entry ")?;
    put_decimal(text, u64::from(entry.session))?;
    text.push(b' ')?;
    text.extend_from_slice(word_of(entry.reply))?;
    text.push(b' ')?;
    put_command_line(text, &entry.command)
}

/// Puts the line of a student's rating of a section behind the text. The only error is that memory
/// was not given.
pub(crate) fn put_rating(
    text: &mut Vec<u8>,
    student: Name,
    section: Name,
    rating: u8,
) -> Result<(), NoMemory>
    ensures { OnOk result
        (text.new.items
        ≡ text.old.items ++ rating_line (name_bytes student) (name_bytes section) rating) }
{
    let n = i32::from(rating);
    put_command_line(
        text,
        &Command::Rate {
            student,
            section,
            n,
        },
    )
}

/// Puts the line of a student's adjustment of two sections behind the text. The only error is that
/// memory was not given.
pub(crate) fn put_adjustment(
    text: &mut Vec<u8>,
    student: Name,
    first: Name,
    second: Name,
    adjustment: i16,
) -> Result<(), NoMemory>
    ensures { OnOk result
        (text.new.items
        ≡ text.old.items
        ++ adjustment_line (name_bytes student) (name_bytes first) (name_bytes second)
        adjustment) }
{
    let n = i32::from(adjustment);
    put_command_line(
        text,
        &Command::Pair {
            student,
            first,
            second,
            n,
        },
    )
}

// Puts the command and a line feed behind the text.
fn put_command_line(text: &mut Vec<u8>, command: &Command) -> Result<(), NoMemory>
    requires { HasShortNumber command.now }
    ensures { OnOk result (text.new.items ≡ text.old.items ++ printed command.now ++ 10 ∷ []) }
{
    let mut room = [0; 128];
    let len = print_command(command, &mut room);
    text.extend_from_slice(&room[..len])?;
    text.push(b'\n')?;
    Ok(())
}

// Puts the number behind the text.
fn put_decimal(text: &mut Vec<u8>, n: u64) -> Result<(), NoMemory>
    ensures { OnOk result (text.new.items ≡ text.old.items ++ decimal n) }
{
    let mut room = [0; 20];
    let len = put_number(n, &mut room);
    text.extend_from_slice(&room[..len])?;
    Ok(())
}

// The reply as it is written.
fn word_of(reply: Reply) -> &'static [u8]
    ensures { result.now ≡ reply_word reply }
{
    match reply {
        Reply::Unreadable => b"unreadable",
        Reply::Closed => b"closed",
        Reply::NoStudent => b"no-student",
        Reply::NoSection => b"no-section",
        Reply::SamePair => b"same-pair",
        Reply::OutOfRange => b"out-of-range",
        Reply::TooMany => b"too-many",
        Reply::Done => b"done",
    }
}
