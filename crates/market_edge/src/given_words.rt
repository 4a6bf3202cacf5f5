// The words of a command, had as text.
ghost use Rattle.std.specs.Prelude.{◌≡◌};
ghost use Rattle.market_edge.specs.GivenWords.{AreHad, IsHad, IsTextOf};
ghost use Rattle.market_edge.specs.declared.given_words.NoWords.TheVariants.{NoMemory};

use crate::words::{Word, Words};
use std::alloc::{AllocError, Global};
use std::str;

/// Why the words of a command are not had.
#[derive(Clone, Copy, Debug, PartialEq, Eq)]
pub enum NoWords {
    /// A word is not UTF-8.
    NotText,
    /// Memory is wanting for them.
    NoMemory,
}

impl From<AllocError> for NoWords {
    ghost from_gives = { λ _ error. error ≡ NoMemory };

    fn from(_error: AllocError) -> NoWords {
        NoWords::NoMemory
    }
}

// How many bytes of a word fit at first.
const ROOM: usize = 256;

/// All words of a command, in order.
pub fn words_of<W: Words>(alloc: Global, source: &W) -> Result<Vec<String>, NoWords>
    ensures { AreHad (W.tells source.now) result }
{
    let mut words = Vec::new(alloc);
    let mut room = vec![in alloc; 0u8; ROOM]?;
    'words: for number in 0..usize::MAX {
        let word = match word_of(alloc, source, number, &mut room) {
            Ok(Some(word)) => word,
            Ok(None) => return Ok(words),
            Err(why) => return Err(why),
        };
        match words.push(word) {
            Ok(()) => {}
            Err(_) => return Err(NoWords::NoMemory),
        }
    }
    Err(NoWords::NoMemory)
}

// The word of a number, or `None` where there is none. The room grows to hold it.
fn word_of<W: Words>(
    alloc: Global,
    source: &W,
    number: usize,
    room: &mut Vec<u8>,
) -> Result<Option<String>, NoWords>
    ensures { IsHad (W.tells source.now) number result }
{
    'rooms: for _ in 0..usize::BITS {
        match source.word(number, room) {
            Word::Whole(count) => return text_of(alloc, &room[..count]),
            Word::Missing => return Ok(None),
            Word::TooLong => room.resize(room.len().saturating_mul(2), 0)?,
        }
    }
    Err(NoWords::NoMemory)
}

// The text of these bytes; never `None`.
fn text_of(alloc: Global, bytes: &[u8]) -> Result<Option<String>, NoWords>
    ensures { IsTextOf bytes.now result }
{
    let Ok(text) = str::from_utf8(bytes) else {
        return Err(NoWords::NotText);
    };
    match String::from_str(alloc, text) {
        Ok(text) => Ok(Some(text)),
        Err(_) => Err(NoWords::NoMemory),
    }
}
