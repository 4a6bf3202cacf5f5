// Where texts are read from. Each text has a name, and is read from its first byte on.
ghost use Rattle.market_edge.specs.Shelves.{ShelfState, IsBegin, IsRead, MayRead};

/// The outside did not do what was asked of it. The fault is counted where it came from.
#[derive(Clone, Copy, Debug, PartialEq, Eq)]
pub struct Failed;

/// Where texts are read from. A call that fails is counted, by the names that it may be about, and
/// no other call is.
pub trait Shelf {
    /// What it shows: what it holds, where it tells; the text that is begun; the names that a failed
    /// read may be about; what was begun before; and the counts of faults. No call changes what it
    /// holds.
    ghost shows: { Self → ShelfState };

    /// Begins the text of a name at its first byte. After a failed call no text is begun.
    fn begin(&mut self, name: &str) -> Result<(), Failed>
        ensures { IsBegin (shows self.old) (shows self.new) name.now result };

    /// Puts the next bytes of the begun text at the front of the room, and answers how many: 0 at
    /// the end of the text alone. A failed call takes none.
    fn read(&mut self, room: &mut [u8]) -> Result<usize, Failed>
        requires { MayRead (shows self.old) room.old }
        ensures { IsRead (shows self.old) (shows self.new) room.new result };
}
