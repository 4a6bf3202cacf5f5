// Words in memory.
ghost use Rattle.std.specs.Prelude.{◌≡◌, Some, map};

use crate::words::{Word, Words};

/// Words of any bytes, which it tells.
#[derive(Drop)]
pub struct MemoryWords {
    words: Vec<Vec<u8>>,
}

impl MemoryWords {
    ghost use Rattle.market_edge.specs.MemoryWords.{words_in};

    /// These words.
    pub fn make(words: Vec<Vec<u8>>) -> MemoryWords
        ensures { words_in result ≡ map (λ word. word.items) words.items }
    {
        MemoryWords { words }
    }
}

impl Words for MemoryWords {
    ghost use Rattle.market_edge.specs.MemoryWords.{words_in};

    ghost tells = { λ source. Some (words_in source) };

    fn word(&self, number: usize, room: &mut [u8]) -> Word {
        if number >= self.words.len() {
            return Word::Missing;
        }
        let word = &self.words[number];
        if word.len() > room.len() {
            return Word::TooLong;
        }
        room[..word.len()].copy_from_slice(word);
        Word::Whole(word.len())
    }
}
