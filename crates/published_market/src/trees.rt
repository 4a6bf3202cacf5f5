// Trees of best bundles, which threads write group after group.
ghost use Rattle.std.specs.Prelude.{ℕ, ◌≡◌, ◌<◌, ◌≤◌, ◌+◌, ◌^◌, List, IfOk, OnOk, length};
ghost use Rattle.bundle_bounds.specs.Offers.{OfferData};
ghost use Rattle.bundle_rules.specs.Bundles.{sections_of};
ghost use Rattle.published_parts.specs.Offers.{IsProvedBest};
ghost use Rattle.published_market.specs.{Making.HasForm, Rooms.AreRooms, Rooms.IsRoomOf, Shown.AreShown};
ghost use Rattle.published_market.specs.Views.{bundle_in, offer_of_best};

use crate::best::Best;
use crate::rooms::{Room, reserve_rooms, workers_for};
use crate::writers::Writers;
use market_certificate::Proved;
use market_units::{MAX_COURSES, MAX_RATINGS, NoMemory};
use std::alloc::Global;
use std::thread::Threads;
use worker_threads::for_each_mut;

// At most this many places are on a menu, and at most this many sections in a bundle.
const PLACES: u8 = MAX_RATINGS as u8;

const COURSES: usize = MAX_COURSES as usize;

/// Best bundles, numbered from 0, and what is published of each with its tree.
pub(crate) trait BestBundles {
    /// What is published of one.
    type Shown: Drop;

    /// How many there are.
    ghost count: { Self → ℕ };

    /// What the bundle of a number is the best of.
    ghost offer: { Self → ℕ → OfferData };

    /// That bundle.
    ghost bundle: { Self → ℕ → List ℕ };

    /// What is published of it.
    ghost is_shown: { Self → ℕ → Self.Shown → Type 0 };

    /// How many there are.
    fn len(&self) -> usize
        ensures { result ≡ count self.now };

    /// The bundle of a number, with what it is the best of.
    fn best(&self, place: usize) -> Best<'_>
        requires { place < count self.now }
        ensures offer { offer_of_best result ≡ offer self.now place }
        ensures bundle { bundle_in result ≡ bundle self.now place };

    /// What is published of it, with its tree.
    fn show(&self, place: usize, proved: Proved) -> Self::Shown
        requires place { place < count self.now }
        requires bundle { sections_of proved.bundle ≡ bundle self.now place }
        requires proved { IsProvedBest (offer self.now place) (sections_of proved.bundle)
            proved.tree.items }
        requires form { HasForm (sections_of proved.bundle) proved.tree.items }
        ensures { is_shown self.now place result };
}

// A best bundle with the tree that proves it: the tree of the room, or one that is built now, where
// it did not fit the room. The only error is that memory was not given.
fn prove_bundle(alloc: Global, best: &Best, room: &Room) -> Result<Proved, NoMemory>
    requires { IsRoomOf (offer_of_best best.now) (bundle_in best.now) room.now }
    ensures bundle { IfOk result (λ proved. sections_of proved.bundle ≡ bundle_in best.now) }
    ensures proved { IfOk result
        (λ proved. IsProvedBest (offer_of_best best.now) (sections_of proved.bundle)
        proved.tree.items) }
    ensures form { IfOk result (λ proved. HasForm (sections_of proved.bundle) proved.tree.items) }
{
    prove!(best.menu.len() <= PLACES);
    prove!(best.bundle.sections().len() <= COURSES);
    let tree = room.tree(alloc, best)?;
    Ok(Proved {
        bundle: *best.bundle,
        tree,
    })
}

// Writes the trees of the bundles from the first on to the rooms, one to each, in threads.
fn fill_rooms<R: Threads + Sync, B: BestBundles + Sync>(
    rt: &R,
    workers: u16,
    bundles: &B,
    first: usize,
    rooms: &mut [Room],
)
where
    B::Shown: Send + Sync,
    requires places { first + length rooms.old ≤ B.count bundles.now }
    requires few { first + length rooms.old < 2 ^ 64 }
    ensures count { length rooms.new ≡ length rooms.old }
    ensures rooms { AreRooms (B.offer bundles.now) (B.bundle bundles.now) first rooms.new }
{
    let threads = workers_for(workers, rooms.len());
    for_each_mut(
        rt,
        rooms,
        threads,
        &|n, room|
            requires { (first + n < B.count bundles.now) × (first + n < 2 ^ 64) }
            ensures { IsRoomOf (B.offer bundles.entry.now (first + n))
                (B.bundle bundles.entry.now (first + n)) room.exit.now }
        { room.fill(&bundles.best(first + n)) },
    );
}

// Puts the next bundles with their trees behind the others: one for each room.
fn put_bundles<B: BestBundles>(
    alloc: Global,
    bundles: &B,
    rooms: &[Room],
    all: &mut Vec<B::Shown>,
) -> Result<(), NoMemory>
    requires places { length all.old.items + length rooms.now ≤ B.count bundles.now }
    requires rooms { AreRooms (B.offer bundles.now) (B.bundle bundles.now) (length all.old.items)
        rooms.now }
    requires shown { AreShown (B.is_shown bundles.now) all.old.items }
    ensures count { OnOk result (length all.new.items ≡ length all.old.items + length rooms.now) }
    ensures shown { OnOk result (AreShown (B.is_shown bundles.now) all.new.items) }
{
    'rooms: for room in rooms {
        let place = all.len();
        let proved = prove_bundle(alloc, &bundles.best(place), room)?;
        all.push(bundles.show(place, proved))?;
    }
    Ok(())
}

/// What is published of all these bundles, in their order. The trees are written group after group;
/// a tree that does not fit its room is built afterwards.
pub(crate) fn prove_all<R: Threads + Sync, B: BestBundles + Sync>(
    rt: &R,
    alloc: Global,
    writers: Writers,
    bundles: &B,
) -> Result<Vec<B::Shown>, NoMemory>
where
    B::Shown: Send + Sync,
    ensures count { IfOk result (λ all. length all.items ≡ B.count bundles.now) }
    ensures shown { IfOk result (λ all. AreShown (B.is_shown bundles.now) all.items) }
{
    let count = bundles.len();
    let mut all = Vec::with_capacity(alloc, count)?;
    let mut rooms = reserve_rooms(alloc, writers, count)?;
    'groups: while all.len() < count {
        let first = all.len();
        let size = rooms.len().min(count - first);
        let group = &mut rooms[..size];
        fill_rooms(rt, writers.workers, bundles, first, group);
        put_bundles(alloc, bundles, group, &mut all)?;
    }
    Ok(all)
}
