// A region of rows: those handed out, and the spare ones.
ghost use Rattle.std.specs.Prelude.{◌≡◌, ◌+◌, ◌<◌, ◌↔◌, ℕ, None, Some, IfOk, length, replicate};
ghost use Rattle.std.specs.FinMap as map;
ghost use Rattle.std.specs.Borrow.{sem};

use market_units::NoMemory;
use std::alloc::Global;
use std::marker::Model;

/// The number of a row of its region. Anyone may make one, since each call asks that its row is
/// live.
#[derive(Clone, Copy, Debug, PartialEq, Eq)]
pub struct RowId(pub u32);

/// Rows of one width. Each is live, which is handed out and held by its number, or spare. A live
/// row keeps what was written to it until it is given back. Only `reserve` takes memory.
#[derive(Drop)]
pub struct Region<T> {
    // Each is a `Vec` of its own: whatever a borrow of `row_mut` ends with, no other row changes.
    rows: Vec<Vec<T>>,
    spare_ids: Vec<u32>,
    spare: usize,
    width: u32,
    fill: T,
}

impl<T> Model for Region<T> {
    ghost use Rattle.row_region.specs.Rows.{Rows, rows_code};

    ghost Value = { Rows T };

    ghost coded = { rows_code T.code };

    ghost use Rattle.row_region.specs.Fields.{rows_of, IsKept};

    ghost view = { rows_of };

    ghost invariant = { IsKept };
}

impl<T: Copy> Region<T> {
    ghost use Rattle.row_region.specs.Lending.{lends_row};
    ghost use Rattle.row_region.specs.Rows.{IsLive, spare_of, with_row, without_row};

    /// A region of this many spare rows of this width. What a row holds when it is handed out is
    /// `fill`.
    pub fn reserve(alloc: Global, rows: u32, width: u32, fill: T) -> Result<Region<T>, NoMemory>
        ensures { IfOk result
            (λ region. region
            ≡ record { width = width; fill = fill; reserved = rows; live = map.empty }) }
    {
        let mut all_rows = Vec::with_capacity(alloc, rows as usize)?;
        let mut spare_ids = Vec::with_capacity(alloc, rows as usize)?;
        for id in 0..rows {
            all_rows.push(filled(alloc, width, fill)?)?;
            spare_ids.push(id)?;
        }
        Ok(Region {
            rows: all_rows,
            spare_ids,
            spare: rows as usize,
            width,
            fill,
        })
    }

    /// How many rows are spare.
    pub fn spare(&self) -> u32
        ensures spare { result ≡ spare_of self.now }
        ensures all { map.len self.now.live + result ≡ self.now.reserved }
    {
        self.spare as u32
    }

    /// Hands out a spare row, filled anew.
    pub fn take(&mut self) -> RowId
        requires { 0 < spare_of self.old }
        ensures was_spare { map.get self.old.live result.0 ≡ None }
        ensures filled { self.new
            ≡ with_row self.old result.0 (replicate self.old.width self.old.fill) }
        ensures spare { spare_of self.new + 1 ≡ spare_of self.old }
    {
        self.spare -= 1;
        let id = self.spare_ids[self.spare];
        refill(self.rows[id as usize].as_mut_slice(), self.fill);
        RowId(id)
    }

    /// Takes a row back, which is spare from then on.
    pub fn give(&mut self, id: RowId)
        requires { IsLive self.old id.0 }
        ensures given { self.new ≡ without_row self.old id.0 }
        ensures spare { spare_of self.new ≡ spare_of self.old + 1 }
    {
        self.spare_ids[self.spare] = id.0;
        self.spare += 1;
    }

    /// What a live row holds.
    pub fn row(&self, id: RowId) -> &[T]
        requires { IsLive self.now id.0 }
        ensures row { map.get self.now.live id.0 ≡ Some result.now }
        ensures width { length result.now ≡ self.now.width }
    {
        self.rows[id.0 as usize].as_slice()
    }

    /// A live row for writing. All other rows stay as they are.
    pub fn row_mut(&mut self, id: RowId) -> &mut [T]
        requires { IsLive self.old id.0 }
        ensures* writes_back { sem 𝓛 (lends_row T.row self.entry id.0 result.now result) }
        ensures row { map.get self.old.live id.0 ≡ Some result.now }
        ensures width { length result.now ≡ self.old.width }
    {
        self.rows[id.0 as usize].as_mut_slice()
    }
}

// A row of this width with one value in each place.
fn filled<T: Copy>(alloc: Global, width: u32, fill: T) -> Result<Vec<T>, NoMemory>
    ensures { IfOk result (λ row. row.items ≡ replicate width fill) }
{
    let mut row = Vec::with_capacity(alloc, width as usize)?;
    for _ in 0..width {
        row.push(fill)?;
    }
    Ok(row)
}

// Puts one value into each place of a row.
fn refill<T: Copy>(row: &mut [T], fill: T)
    ensures { row.new ≡ replicate (length row.old) fill }
{
    for cell in row.iter_mut() {
        *cell = fill;
    }
}
