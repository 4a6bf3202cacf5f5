// Commands written into a room.
ghost use Rattle.std.specs.Prelude.{◌≡◌, ◌+◌, ◌<◌, ◌≤◌, ◌^◌, ◌++◌, ◌∷◌, take, drop, length, unsigned_abs};
ghost use Rattle.std.specs.Fmt.{signed_decimal};
ghost use Rattle.utility_language.specs.Commands.{HasShortNumber, printed};

use crate::Command;
use market_units::put_number;

/// Writes the command's text at the front of the room, and gives its length; the rest of the room
/// stays. The number, where the command has one, is from -999,999 to 999,999, as `read_line` gives
/// it.
pub fn print_command(command: &Command, room: &mut [u8; 128]) -> usize
    requires { HasShortNumber command.now }
    ensures fits { result ≤ 128 }
    ensures text { take result room.new ≡ printed command.now }
    ensures rest { drop result room.new ≡ drop result room.old }
{
    match *command {
        Command::Rate {
            student,
            section,
            n,
        } => {
            let end = put(room, 0, b"rate");
            let end = put_word(room, end, student.bytes());
            let end = put_word(room, end, section.bytes());
            put_short(room, end, n)
        }
        Command::Pair {
            student,
            first,
            second,
            n,
        } => {
            let end = put(room, 0, b"pair");
            let end = put_word(room, end, student.bytes());
            let end = put_word(room, end, first.bytes());
            let end = put_word(room, end, second.bytes());
            put_short(room, end, n)
        }
        Command::Clear { student } => {
            let end = put(room, 0, b"clear");
            put_word(room, end, student.bytes())
        }
        Command::Close => put(room, 0, b"close"),
        Command::Unreadable => put(room, 0, b"unreadable"),
    }
}

// Writes the text at this place, and gives the place behind it.
fn put(room: &mut [u8], place: usize, text: &[u8]) -> usize
    requires { place + length text.now ≤ length room.old }
    ensures end { result ≡ place + length text.now }
    ensures text { take result room.new ≡ take place room.old ++ text.now }
    ensures rest { drop result room.new ≡ drop result room.old }
{
    let end = place + text.len();
    room[place..end].copy_from_slice(text);
    end
}

// The same of a space and the word.
fn put_word(room: &mut [u8], place: usize, word: &[u8]) -> usize
    requires { place + 1 + length word.now ≤ length room.old }
    ensures end { result ≡ place + 1 + length word.now }
    ensures text { take result room.new ≡ take place room.old ++ 32 ∷ word.now }
    ensures rest { drop result room.new ≡ drop result room.old }
{
    let place = put(room, place, b" ");
    put(room, place, word)
}

// The same of a space and a number.
fn put_short(room: &mut [u8], place: usize, n: i32) -> usize
    requires short { unsigned_abs n < 10 ^ 6 }
    requires fits { place + 8 ≤ length room.old }
    ensures end { result ≡ place + 1 + length (signed_decimal n) }
    ensures text { take result room.new ≡ take place room.old ++ 32 ∷ signed_decimal n }
    ensures rest { drop result room.new ≡ drop result room.old }
{
    let mut digits = [0; 20];
    let len = put_number(u64::from(n.unsigned_abs()), &mut digits);
    let sign: &[u8] = if n < 0 { b" -" } else { b" " };
    let place = put(room, place, sign);
    put(room, place, &digits[..len])
}
