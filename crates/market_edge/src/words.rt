// Where the words of a command come from.
ghost use Rattle.std.specs.Prelude.{Option, List, ℕ};
ghost use Rattle.market_edge.specs.Words.{IsWord};

/// What is found where a word is asked for.
#[derive(Clone, Copy, Debug, PartialEq, Eq)]
pub enum Word {
    /// There is a word of this number. It has so many bytes, and these stand at the front of the
    /// room.
    Whole(usize),
    /// There is a word of this number, and it has more bytes than the room.
    TooLong,
    /// There is no word of this number, nor of a greater one.
    Missing,
}

/// Where the words of a command come from: those behind the program's name, in order.
pub trait Words {
    /// The bytes of each word, where it tells.
    ghost tells: { Self → Option (List (List ℕ)) };

    /// Puts the bytes of the word of a number at the front of the room, where they fit. The first
    /// word has the number 0.
    fn word(&self, number: usize, room: &mut [u8]) -> Word
        ensures { IsWord (tells self.now) number room.new result };
}
