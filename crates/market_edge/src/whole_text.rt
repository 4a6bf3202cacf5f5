// Whole texts, in and out.
ghost use Rattle.std.specs.Prelude.{◌≡◌, ◌+◌, ◌<◌, ◌≤◌, [], ◌∷◌, List, ℕ, length, IsTrue, IfOk, OnOk, OnErr, IsErrOf};
ghost use Rattle.market_edge.specs.Faults.{Rose};
ghost use Rattle.market_edge.specs.Holdings.{IsReadOut, IsTextOf, TakesAtMost, TakesExactly};
ghost use Rattle.market_edge.specs.Openings.{BeginsAtMost, Changes, with_read_out};
ghost use Rattle.market_edge.specs.Sinks.{Takes, TakesFront};
ghost use Rattle.market_edge.specs.declared.whole_text.Taking.TheVariants.{ShelfFault, NoMemory};

use crate::{Failed, Shelf, Sink};
use market_units::MAX_TEXT_BYTES;
use std::alloc::{AllocError, Global};

// As many bytes as one read may put.
const PIECE: usize = 8192;

/// Why a text was not read whole.
#[derive(Clone, Copy, Debug, PartialEq, Eq)]
pub enum Taking {
    /// The shelf could not begin the text, or could not read on.
    ShelfFault,
    /// The text has more bytes than the limit.
    TooLong,
    /// There was no memory for the text.
    NoMemory,
}

impl From<Failed> for Taking {
    ghost from_gives = { λ _ e. e ≡ ShelfFault };

    fn from(_: Failed) -> Self {
        Taking::ShelfFault
    }
}

impl From<AllocError> for Taking {
    ghost from_gives = { λ _ e. e ≡ NoMemory };

    fn from(_: AllocError) -> Self {
        Taking::NoMemory
    }
}

/// The sink did not take the whole text.
#[derive(Clone, Copy, Debug, PartialEq, Eq)]
pub struct SinkFault;

/// The whole text of a name, read to its end, where it has at most `limit` bytes.
pub fn read_whole<H: Shelf>(
    alloc: Global,
    shelf: &mut H,
    name: &str,
    limit: usize,
) -> Result<Vec<u8>, Taking>
    requires { limit ≤ MAX_TEXT_BYTES }

    ensures whole { IfOk result (λ text. IsTextOf (H.shows shelf.old).holds name.now text.items) }
    ensures end { OnOk result (IsReadOut (H.shows shelf.old).holds (H.shows shelf.new).left) }
    // The text is begun and read to its end, or begun at most; nothing else is begun.
    ensures read_out { OnOk result
        (Changes (H.shows shelf.old).openings (H.shows shelf.new).openings
        (with_read_out (name.now ∷ []))) }
    ensures begun { ¬ IsErrOf result Taking.ShelfFault → IsTrue (H.shows shelf.new).is_begun }
    ensures begun_at_most { OnErr result
        (BeginsAtMost (H.shows shelf.old).openings (H.shows shelf.new).openings name.now
        (H.shows shelf.new).is_begun) }

    ensures served { OnOk result (IsTrue ((H.shows shelf.new).serves name.now)) }
    ensures within { IfOk result (λ text. length text.items ≤ limit) }

    // It is too long exactly where one byte more than the limit was taken.
    ensures too_long { IsErrOf result Taking.TooLong
        → TakesExactly (limit + 1) (H.shows shelf.old).holds name.now (H.shows shelf.new).left }
    ensures at_most { ¬ IsErrOf result Taking.TooLong → IsTrue (H.shows shelf.new).is_begun
        → TakesAtMost limit (H.shows shelf.old).holds name.now (H.shows shelf.new).left }

    // A fault is counted exactly where the shelf is at fault.
    ensures shelf_fault { IsErrOf result Taking.ShelfFault
        → Rose ((H.shows shelf.old).faults name.now) ((H.shows shelf.new).faults name.now) }
    ensures uncounted { ¬ IsErrOf result Taking.ShelfFault
        → (H.shows shelf.new).faults ≡ (H.shows shelf.old).faults }

    ensures holds { (H.shows shelf.new).holds ≡ (H.shows shelf.old).holds }
    ensures later { (other : List ℕ)
        → (H.shows shelf.old).faults other ≤ (H.shows shelf.new).faults other }
{
    shelf.begin(name)?;
    let mut text = Vec::new(alloc);
    let mut room = [0; PIECE];
    'pieces: loop {
        let most = (limit + 1 - text.len()).min(PIECE);
        let count = shelf.read(&mut room[..most])?;
        if count == 0 {
            return Ok(text);
        }
        // Asked before these bytes are kept, so that want of memory cannot stand in the place of
        // `TooLong`.
        if text.len() + count > limit {
            return Err(Taking::TooLong);
        }
        text.extend_from_slice(&room[..count])?;
    }
}

/// Writes the whole text. After a fault some bytes at its end were not taken. It takes no memory.
pub fn write_whole<K: Sink>(sink: &mut K, text: &[u8]) -> Result<(), SinkFault>
    ensures whole { OnOk result (Takes (K.shows sink.old).taken (K.shows sink.new).taken text.now) }
    ensures front { OnErr result
        (TakesFront (K.shows sink.old).taken (K.shows sink.new).taken text.now) }
    ensures cause { OnErr result (Rose (K.shows sink.old).faults (K.shows sink.new).faults) }
    ensures uncounted { OnOk result ((K.shows sink.new).faults ≡ (K.shows sink.old).faults) }
    ensures later { (K.shows sink.old).faults ≤ (K.shows sink.new).faults }
{
    let mut done = 0;
    'pieces: while done < text.len() {
        match sink.write(&text[done..]) {
            Ok(count) => done += count,
            Err(Failed) => return Err(SinkFault),
        }
    }
    Ok(())
}
