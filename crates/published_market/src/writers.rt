// Who writes trees.
ghost use Rattle.std.specs.Prelude.{◌≡◌};

// The bytes of a room. Of the 18,000 trees of a large market one is longer; at half of this 306
// would be, which are an eighth of all bytes.
pub(crate) const ROOM: usize = 16_384;

/// Who writes trees: at most so many workers, one where that is 0, and each of their rooms has so
/// many bytes. A tree that does not fit a room is built afterwards.
#[derive(Clone, Copy, Debug)]
pub struct Writers {
    pub(crate) workers: u16,
    pub(crate) room: usize,
}

impl Writers {
    /// At most so many workers, with rooms of 16,384 bytes, which few trees do not fit.
    pub fn of(workers: u16) -> Writers
        ensures workers { result.workers ≡ workers }
        ensures room { result.room ≡ ROOM }
    {
        Writers {
            workers,
            room: ROOM,
        }
    }
}
