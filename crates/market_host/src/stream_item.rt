// What the streams of a call are made of.
ghost use Rattle.std.specs.Prelude.{◌≡◌, ◌<◌, ◌≤◌, List, ℕ, length, Err, IfErr, IfOk, OnOk};
ghost use Rattle.std.specs.List.{AllZip};
ghost use Rattle.dropadd_hall.specs.Requests.{IsRequestOf};
ghost use Rattle.utility_language.specs.Commands.{IsCommandOf, command_lines};
ghost use Rattle.utility_language.specs.declared.streams.StreamEnd.TheVariants.{TooMany};
ghost use Rattle.market_host.specs.Reading.{IsSurplus};
ghost use Rattle.market_host.specs.Sessions.{command_count, session_text};

use crate::input::without_mark;
use crate::trouble::Trouble;
use dropadd_desk::HallCommand;
use dropadd_hall::read_requests;
use std::alloc::Global;
use utility_language::{Command, StreamEnd, read_stream};

/// What a session says, line by line: commands to the desk of preferences, or requests to that of
/// drop and add.
pub trait StreamItem: Drop {
    /// Which item the words of a line are.
    ghost is_item_of: { List (List ℕ) → Self → Type 0 };

    /// The items of the text, line by line. `TooMany` comes where there are more than `room`.
    fn read_items(alloc: Global, bytes: &[u8], room: u32) -> Result<Vec<Self>, StreamEnd>
        ensures items { IfOk result
            (λ items. AllZip is_item_of (command_lines bytes.now) items.items) }
        ensures fits { OnOk result (length (command_lines bytes.now) ≤ room) }
        ensures too_many { result ≡ Err TooMany → room < length (command_lines bytes.now) };
}

impl StreamItem for Command {
    ghost is_item_of = { IsCommandOf };

    fn read_items(alloc: Global, bytes: &[u8], room: u32) -> Result<Vec<Self>, StreamEnd> {
        read_stream(alloc, bytes, room)
    }
}

impl StreamItem for HallCommand {
    ghost is_item_of = { IsRequestOf };

    fn read_items(alloc: Global, bytes: &[u8], room: u32) -> Result<Vec<Self>, StreamEnd> {
        read_requests(alloc, bytes, room)
    }
}

/// What the text of this input says, where there is room for so many, or why there are none.
pub fn items_in<S: StreamItem>(
    alloc: Global,
    bytes: &[u8],
    input: u16,
    room: u32,
) -> Result<Vec<S>, Trouble>
    ensures items { IfOk result
        (λ items. AllZip S.is_item_of (command_lines (session_text bytes.now)) items.items
        × (command_count bytes.now ≤ room)) }
    ensures surplus { IfErr result (IsSurplus bytes.now room input) }
{
    match S::read_items(alloc, without_mark(bytes), room) {
        Ok(items) => Ok(items),
        Err(StreamEnd::TooMany) => Err(Trouble::TooLong { input }),
        Err(StreamEnd::NoMemory) => Err(Trouble::OutOfMemory),
    }
}
