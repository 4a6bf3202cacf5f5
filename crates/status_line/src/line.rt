// Lines in a fixed room.
ghost use Rattle.std.specs.Prelude.{◌≡◌, ◌≤◌, ◌+◌, ◌++◌, [], List, ℕ, length, take};
ghost use Rattle.std.specs.Fmt.{decimal};

use market_units::put_number;
use std::marker::Model;

/// The most bytes that a line may have: more than any line of a status has.
pub const ROOM: usize = 128;

/// A line that grows at its end, of at most 128 bytes. Contracts see it as its bytes.
#[derive(Drop)]
pub struct Line {
    room: [u8; 128],
    count: usize,
}

impl Model for Line {
    ghost Value = { List ℕ };

    ghost view = { λ line. take line.count line.room };

    ghost invariant = { λ line. line.count ≤ 128 };
}

impl Line {
    /// The line without a byte.
    pub fn empty() -> Line
        ensures { result ≡ [] }
    {
        Line {
            room: [0; ROOM],
            count: 0,
        }
    }

    /// The bytes of the line.
    pub fn as_bytes(&self) -> &[u8]
        ensures { result.now ≡ self.now }
    {
        &self.room[..self.count]
    }

    /// The line with a text behind it, for which it has room.
    pub fn with(self, text: &[u8]) -> Line
        requires { length self + length text.now ≤ 128 }
        ensures line { result ≡ self ++ text.now }
        ensures long { length result ≡ length self + length text.now }
    {
        let mut room = self.room;
        let count = self.count;
        let end = count + text.len();
        room[count..end].copy_from_slice(text);
        Line { room, count: end }
    }

    /// The line with a number behind it, in decimal digits, of which it has room for twenty.
    pub fn with_number(self, number: u64) -> Line
        requires { length self + 20 ≤ 128 }
        ensures line { result ≡ self ++ decimal number }
        ensures short { length result ≤ length self + 20 }
    {
        let mut digits = [0; 20];
        let count = put_number(number, &mut digits);
        self.with(&digits[..count])
    }
}
