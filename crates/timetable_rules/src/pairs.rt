// Two sections that clash.
ghost use Rattle.std.specs.Prelude.{◌≡◌, ◌≤◌, ◌<◌, length, map};
ghost use Rattle.market_units.specs.declared.limits.TheConstants.{MAX_SECTIONS};
ghost use Rattle.timetable_rules.specs.{Clash.clashes, Meetings.meetings_of};

use crate::parts_text::share_part;
use crate::{Meetings, Parts, overlap};

/// When each section meets, its course number and its parts of the term, by ordinal. There are at
/// most 400 sections.
#[derive(Clone, Copy)]
pub(crate) struct Timetable<'a> {
    pub(crate) meetings: &'a [Meetings],
    pub(crate) courses: &'a [u16],
    pub(crate) parts: &'a [Parts],
    ghost meetings_each: { length meetings.now ≡ length courses.now },
    ghost parts_each: { length parts.now ≡ length courses.now },
    ghost few: { length courses.now ≤ MAX_SECTIONS },
}

/// Whether two sections clash.
pub(crate) fn do_clash(timetable: &Timetable, a: usize, b: usize) -> bool
    requires first { a < length timetable.now.courses.now }
    requires second { b < length timetable.now.courses.now }
    ensures { result
        ≡ clashes (map meetings_of timetable.now.meetings.now) timetable.now.courses.now
        timetable.now.parts.now a b }
{
    let Timetable {
        meetings,
        courses,
        parts,
    } = *timetable;
    a != b
        && (courses[a] == courses[b]
            || (overlap(&meetings[a], &meetings[b]) && share_part(parts[a], parts[b])))
}
