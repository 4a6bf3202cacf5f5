// Commands of a whole text.
ghost use Rattle.std.specs.Prelude.{◌≡◌, ◌<◌, ◌≤◌, length, All, IfOk, OnOk, Err};
ghost use Rattle.utility_language.specs.Commands.{AreCommands, HasShortNumber, command_lines};
ghost use Rattle.utility_language.specs.declared.streams.StreamEnd.TheVariants.{TooMany, NoMemory};

use crate::Command;
use crate::lines::first_line;
use crate::reading::read_line;
use std::alloc::{AllocFailed, Global};

/// Why a stream was not read.
#[derive(Clone, Copy, Debug, PartialEq, Eq)]
pub enum StreamEnd {
    /// There are more commands than there is room for.
    TooMany,
    /// Memory was wanted and not given.
    NoMemory,
}

impl<T: Drop> From<AllocFailed<T>> for StreamEnd {
    ghost from_gives = { λ _ end. end ≡ NoMemory };

    fn from(_: AllocFailed<T>) -> Self {
        StreamEnd::NoMemory
    }
}

/// The commands of the text, line by line. Blank lines and comments are none; a line that can't be
/// read is one. `TooMany` comes where there are more than `room`.
pub fn read_stream(alloc: Global, bytes: &[u8], room: u32) -> Result<Vec<Command>, StreamEnd>
    ensures commands { IfOk result (λ commands. AreCommands bytes.now commands.items) }
    ensures short { IfOk result (λ commands. All HasShortNumber commands.items) }
    ensures fits { OnOk result (length (command_lines bytes.now) ≤ room) }
    ensures too_many { result ≡ Err TooMany → room < length (command_lines bytes.now) }
{
    let mut commands = Vec::new(alloc);
    let mut rest = bytes;
    while !rest.is_empty() {
        let (line, after) = first_line(rest);
        rest = after;
        let Some(command) = read_line(line) else {
            continue;
        };
        if commands.len() >= room as usize {
            return Err(StreamEnd::TooMany);
        }
        commands.push(command)?;
    }
    Ok(commands)
}
