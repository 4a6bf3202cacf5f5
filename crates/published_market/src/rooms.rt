// Rooms that threads write trees to: each has its memory before a thread starts.
ghost use Rattle.std.specs.Prelude.{◌<◌, None, IfOk, length};
ghost use Rattle.proof_tree.specs.Texts.{IsTreeText};
ghost use Rattle.published_market.specs.{Rooms.IsRoomOf, Views.bundle_in, Views.offer_of_best};

use crate::best::Best;
use crate::writers::Writers;
use market_units::NoMemory;
use proof_tree::{build, build_into};
use std::alloc::Global;

// The rooms that several workers fill before their trees are copied out: 4 MB. With twice as many
// the workers are hardly better parted.
const GROUP: usize = 256;

// For so many trees each one more worker is started: a start and its end take about as long as
// several trees.
const SHARE: usize = 16;

// A room, and how many bytes of it are the tree that was written to it; none where the tree did not
// fit.
#[derive(Drop)]
pub(crate) struct Room {
    bytes: Vec<u8>,
    written: Option<usize>,
}

impl Room {
    /// Writes the tree of a best bundle to the room. Where it does not fit, the room tells that it
    /// has none. It takes no memory.
    pub(crate) fn fill(&mut self, best: &Best)
        ensures { IsRoomOf (offer_of_best best.now) (bundle_in best.now) self.new }
    {
        self.written = build_into(
            best.menu,
            best.prices,
            best.budget,
            best.allowed,
            best.bundle,
            &mut self.bytes,
        );
    }

    /// A copy of the tree that was written to the room. Where it did not fit, the same tree is
    /// built now.
    pub(crate) fn tree(&self, alloc: Global, best: &Best) -> Result<Vec<u8>, NoMemory>
        requires { IsRoomOf (offer_of_best best.now) (bundle_in best.now) self.now }
        ensures { IfOk result
            (λ tree. IsTreeText (offer_of_best best.now) None (bundle_in best.now) tree.items) }
    {
        match self.written {
            Some(count) => Ok(self.bytes[..count].to_vec(alloc)?),
            None => build(
                alloc,
                best.menu,
                best.prices,
                best.budget,
                best.allowed,
                best.bundle,
            ),
        }
    }
}

/// The rooms in which so many trees are written: by several workers a group of at most 256 at once.
/// One worker has one room, since it waits for nobody. There is at least one room, also for no
/// tree.
pub(crate) fn reserve_rooms(
    alloc: Global,
    writers: Writers,
    trees: usize,
) -> Result<Vec<Room>, NoMemory>
    ensures { IfOk result (λ rooms. 0 < length rooms.items) }
{
    let group = if writers.workers > 1 { GROUP } else { 1 };
    let count = trees.min(group).max(1);
    let mut rooms = Vec::with_capacity(alloc, count)?;
    for _ in 0..count {
        let bytes = vec![in alloc; 0; writers.room]?;
        rooms.push(Room {
            bytes,
            written: None,
        })?;
    }
    Ok(rooms)
}

/// How many of these workers write so many trees: one for each 16 trees, at most all of them, and
/// at least one.
pub(crate) fn workers_for(workers: u16, trees: usize) -> usize
    ensures { 0 < result }
{
    (trees / SHARE).min(usize::from(workers)).max(1)
}
