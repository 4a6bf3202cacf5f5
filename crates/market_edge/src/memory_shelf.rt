// A shelf in memory, for tests.
ghost use Rattle.std.specs.Prelude.{◌≡◌, ◌<◌, ◌≤◌, ◌+◌, ◌⊎◌, ◌++◌, ◌↔◌, [], Some, List, ℕ, Bool, false, length, take, drop, min, is_some, IsTrue, IsNone, IsErr, Contains, IfOk, OnOk, OnErr};
ghost use Rattle.std.specs.Option.{ForSome};
ghost use Rattle.market_units.specs.Counts.{one_more};
ghost use Rattle.market_edge.specs.MemoryFiles.{IsPlace, Raises, count_of, has_place_of, holding_of, left_of, place_of, serves_name};
ghost use Rattle.market_edge.specs.Openings.{tells_on};
ghost use Rattle.market_edge.specs.Shelves.{IsBegin, IsRead, MayRead};
ghost use Rattle.market_edge.specs.declared.begun_list.TheConstants.{ROOM};

use crate::begun_list::BegunList;
use crate::memory_files::{Place, find, put_rest};
use crate::{Failed, Shelf};
use market_units::NoMemory;
use std::alloc::Global;

/// A shelf of files in memory, whose calls of certain numbers fail. Begins and reads together are
/// numbered from 1. Of two files of one name the first counts. It tells what was begun until
/// more than 128 texts were begun before the last.
#[derive(Drop)]
pub struct MemoryShelf {
    files: Vec<(String, Vec<u8>)>,
    failing: Vec<u64>,
    calls: u64,
    counts: Vec<u64>,
    others: u64,
    earlier: BegunList,
    begun: Option<Place>,
    is_ended: bool,
    ghost counted: { length counts.items ≡ length files.items },
    ghost placed: { ForSome begun (IsPlace files.items) },
}

impl MemoryShelf {
    ghost use Rattle.market_edge.specs.MemoryShelves.{calls_of, failing_of, files_of, told_by};

    /// A shelf of these files, with nothing begun and no call made.
    pub fn make(
        alloc: Global,
        files: Vec<(String, Vec<u8>)>,
        failing: Vec<u64>,
    ) -> Result<MemoryShelf, NoMemory>
        ensures files { IfOk result (λ shelf. files_of shelf ≡ files.items) }
        ensures failing { IfOk result (λ shelf. failing_of shelf ≡ failing.items) }
        ensures calls { IfOk result (λ shelf. calls_of shelf ≡ 0) }
        ensures holds { IfOk result
            (λ shelf. (told_by shelf).holds ≡ Some (holding_of files.items)) }
        ensures begun { IfOk result (λ shelf. (told_by shelf).is_begun ≡ false) }
        ensures openings { IfOk result (λ shelf. (told_by shelf).openings ≡ Some []) }
        ensures faults { IfOk result (λ shelf. (name : List ℕ) → (told_by shelf).faults name ≡ 0) }
    {
        let counts = vec![in alloc; 0; files.len()]?;
        Ok(MemoryShelf {
            files,
            failing,
            calls: 0,
            counts,
            others: 0,
            earlier: BegunList::make(alloc)?,
            begun: None,
            is_ended: false,
        })
    }
}

impl Shelf for MemoryShelf {
    ghost use Rattle.market_edge.specs.MemoryShelves.{FailsNext, IsNextCall, files_of, told_by};

    ghost shows = { told_by };

    fn begin(&mut self, name: &str) -> Result<(), Failed>
        ensures begins { IsBegin (told_by self.old) (told_by self.new) name.now result }

        // It serves the name of the begun file alone.
        ensures alone { OnOk result
            ((other : List ℕ)
            → (told_by self.new).serves other ≡ has_place_of (files_of self.old) name.now other) }

        // It fails exactly at the calls of these numbers, and where no file has the name; each
        // failure is counted.
        ensures fails { IsErr result
            ↔ (IsNone (place_of (files_of self.old) name.now) ⊎ FailsNext self.old) }
        ensures counted { OnErr result
            (Raises (has_place_of (files_of self.old) name.now) (told_by self.old).faults
            (told_by self.new).faults) }

        // It tells on where at most 128 texts were begun before, and a read ends no telling.
        ensures tells { is_some (told_by self.new).openings
            ≡ tells_on ROOM (told_by self.old).openings }

        ensures next { IsNextCall self.old self.new }
    {
        let fails = next_fails(&mut self.calls, &self.failing);
        self.earlier.put(self.begun, self.is_ended);
        self.begun = None;
        self.is_ended = false;
        let Some(file) = find(&self.files, name) else {
            self.others = self.others.saturating_add(1);
            return Err(Failed);
        };
        if fails {
            self.counts[file] = self.counts[file].saturating_add(1);
            return Err(Failed);
        }
        self.begun = Some(Place { file, at: 0 });
        Ok(())
    }

    fn read(&mut self, room: &mut [u8]) -> Result<usize, Failed>
        requires { MayRead (told_by self.old) room.old }
        ensures reads { IsRead (told_by self.old) (told_by self.new) room.new result }

        // It fails exactly at the calls of these numbers; each failure is counted.
        ensures fails { IsErr result ↔ FailsNext self.old }
        ensures counted { OnErr result
            (Raises (told_by self.old).serves (told_by self.old).faults
            (told_by self.new).faults) }
        ensures tells { is_some (told_by self.new).openings ≡ is_some (told_by self.old).openings }
        ensures next { IsNextCall self.old self.new }
    {
        let Some(place) = self.begun else {
            unreachable!()
        };
        if next_fails(&mut self.calls, &self.failing) {
            self.counts[place.file] = self.counts[place.file].saturating_add(1);
            return Err(Failed);
        }
        let count = put_rest(&self.files[place.file].1, place.at, room);
        self.is_ended |= count == 0;
        self.begun = Some(Place {
            file: place.file,
            at: place.at + count,
        });
        Ok(count)
    }
}

// Counts a call, and says whether it is to fail.
fn next_fails(calls: &mut u64, failing: &[u64]) -> bool
    ensures counted { calls.new ≡ one_more calls.old }
    ensures fails { IsTrue result ↔ Contains failing.now calls.new }
{
    *calls = calls.saturating_add(1);
    failing.contains(calls)
}
