// The waiting lists of all sections.
ghost use Rattle.std.specs.Prelude.{◌≡◌, ◌==◌, ◌<◌, ◌≤◌, ◌+◌, ◌-◌, ◌∷◌, ◌++◌, [], IfOk, length, take, position, replicate, slice_index_or, slice_set};
ghost use Rattle.std.specs.List.{remove_range};

use market_units::NoMemory;
use row_region::{Region, RowId};
use std::alloc::Global;
use std::marker::Model;

/// A list, as the front of a row.
#[derive(Clone, Copy)]
pub(crate) struct Front {
    pub row: u32,
    pub len: u16,
}

/// Lists of numbers, each in a row of one region. Only `reserve` takes memory.
#[derive(Drop)]
pub(crate) struct WaitingLists {
    region: Region<u16>,
    fronts: Vec<Front>,
}

impl Model for WaitingLists {
    ghost use Rattle.dropadd_desk.specs.Lists.{Lists};

    ghost Value = { Lists };

    ghost use Rattle.dropadd_desk.specs.Fronts.{lists_of, AreKept};

    ghost view = { lists_of };

    ghost invariant = { AreKept };
}

impl WaitingLists {
    /// So many empty lists, each with room for `width` items.
    pub fn reserve(alloc: Global, lists: u16, width: u16) -> Result<WaitingLists, NoMemory>
        ensures { IfOk result
            (λ made. made ≡ record { width = width; lists = replicate lists [] }) }
    {
        let mut region = Region::reserve(alloc, u32::from(lists), u32::from(width), 0)?;
        let mut fronts = Vec::with_capacity(alloc, usize::from(lists))?;
        'lists: for _ in 0..lists {
            let row = region.take().0;
            fronts.push(Front { row, len: 0 })?;
        }
        Ok(WaitingLists { region, fronts })
    }

    /// The items of a list.
    pub fn items(&self, list: usize) -> &[u16]
        requires { list < length self.now.lists }
        ensures { result.now ≡ slice_index_or self.now.lists list [] }
    {
        let front = self.fronts[list];
        &self.region.row(RowId(front.row))[..usize::from(front.len)]
    }

    /// Puts an item behind a list.
    pub fn push(&mut self, list: usize, item: u16)
        requires list { list < length self.old.lists }
        requires room { length (slice_index_or self.old.lists list []) < self.old.width }
        ensures { self.new
            ≡ record {
              width = self.old.width;
              lists = slice_set self.old.lists list
                  (slice_index_or self.old.lists list [] ++ item ∷ []);
            } }
    {
        let front = self.fronts[list];
        put(
            self.region.row_mut(RowId(front.row)),
            usize::from(front.len),
            item,
        );
        self.fronts[list] = Front {
            row: front.row,
            len: front.len + 1,
        };
    }

    /// Takes the items from the place `start` on, and before the place `end`, out of a list.
    pub fn take_out(&mut self, list: usize, start: usize, end: usize)
        requires list { list < length self.old.lists }
        requires order { start ≤ end }
        requires within { end ≤ length (slice_index_or self.old.lists list []) }
        ensures { self.new
            ≡ record {
              width = self.old.width;
              lists = slice_set self.old.lists list
                  (remove_range (slice_index_or self.old.lists list []) start end);
            } }
    {
        let front = self.fronts[list];
        let row = self.region.row_mut(RowId(front.row));
        // What stands behind the place `end` is moved to the place `start`.
        row.copy_within(end..usize::from(front.len), start);
        self.fronts[list] = Front {
            row: front.row,
            len: front.len - (end - start) as u16,
        };
    }
}

/// The first place of an item in a list, from 0; `None` where the item is not in it.
pub(crate) fn place_of(items: &[u16], item: u16) -> Option<usize>
    ensures { result ≡ position (λ other. other == item) items.now }
{
    items.iter().position(|other| *other == item)
}

fn put(cells: &mut [u16], place: usize, item: u16)
    requires { place < length cells.old }
    ensures { cells.new ≡ slice_set cells.old place item }
{
    cells[place] = item;
}
