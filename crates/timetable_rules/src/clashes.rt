// Which sections clash, worked out once.
ghost use Rattle.std.specs.Prelude.{◌≡◌, ◌≤◌, ◌<◌, IfOk, length, map};
ghost use Rattle.timetable_rules.specs.{Clash.IsClashTable, Clash.tells, Meetings.meetings_of};

use crate::pairs::{Timetable, do_clash};
use crate::{Meetings, Parts};
use market_units::{MAX_SECTIONS, NoMemory, SectionNo, SectionSet};
use std::alloc::Global;
use std::marker::Model;

/// Which sections clash, as a bit for each pair of them. It is seen as a list that has, for each
/// section, the set of the sections that clash with it.
#[derive(Drop)]
pub struct ClashTable {
    rows: Vec<SectionSet>,
}

impl Model for ClashTable {
    ghost use Rattle.std.specs.Prelude.{◌≤◌, List, length};
    ghost use Rattle.std.specs.Ordering.{nat_cmp};
    ghost use Rattle.std.specs.FinSet as set;
    ghost use Rattle.std.specs.Coded.{codes, coded_ℕ};
    ghost use Rattle.market_units.specs.declared.limits.TheConstants.{MAX_SECTIONS};

    ghost Value = { List (set.FinSet nat_cmp) };

    ghost coded = { Prim.hlevel (codes, set.code {R = nat_cmp} coded_ℕ) };

    ghost view = { λ table. table.rows.items };

    ghost invariant = { λ table. length table.rows.items ≤ MAX_SECTIONS };
}

impl ClashTable {
    /// The table of the sections with these meetings, course numbers and parts of the term, by
    /// ordinal.
    pub fn build(
        alloc: Global,
        meetings: &[Meetings],
        courses: &[u16],
        parts: &[Parts],
    ) -> Result<ClashTable, NoMemory>
        requires meetings { length meetings.now ≡ length courses.now }
        requires parts { length parts.now ≡ length courses.now }
        requires few { length courses.now ≤ MAX_SECTIONS }
        ensures { IfOk result (IsClashTable (map meetings_of meetings.now) courses.now parts.now) }
    {
        let timetable = Timetable {
            meetings,
            courses,
            parts,
        };
        let mut rows: Vec<SectionSet> = Vec::with_capacity(alloc, courses.len())?;
        for section in 0..courses.len() {
            let mut row = SectionSet::empty();
            // A clash is mutual: each pair is looked at once, and written into both rows.
            for earlier in 0..section {
                if do_clash(&timetable, section, earlier) {
                    row = row.with(SectionNo(earlier as u16));
                    rows[earlier] = rows[earlier].with(SectionNo(section as u16));
                }
            }
            rows.push(row)?;
        }
        Ok(ClashTable { rows })
    }

    /// Another table that is equal to this one, or that memory is wanting.
    pub fn copy(&self, alloc: Global) -> Result<ClashTable, NoMemory>
        ensures { IfOk result (λ table. table ≡ self.now) }
    {
        Ok(ClashTable {
            rows: self.rows.to_vec(alloc)?,
        })
    }

    /// Whether the two sections clash, as the table was built.
    pub fn clash(&self, a: SectionNo, b: SectionNo) -> bool
        requires first { a.0 < length self.now }
        requires second { b.0 < length self.now }
        ensures { result ≡ tells self.now a.0 b.0 }
    {
        self.rows[usize::from(a.0)].has(b)
    }
}
