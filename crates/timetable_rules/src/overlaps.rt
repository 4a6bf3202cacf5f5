// Meetings at the same time.
ghost use Rattle.std.specs.Prelude.{◌≡◌, ◌↔◌, IsTrue};
ghost use Rattle.std.specs.List.{list_any};
ghost use Rattle.timetable_rules.specs.Meetings.{meetings_of};
ghost use Rattle.timetable_rules.specs.Overlap.{SomeOverlap, overlaps, some_overlap};

use crate::{Meeting, Meetings};

/// Whether a meeting of the one overlaps a meeting of the other: on the same day, and each starts
/// before the other ends. Meetings that only touch do not overlap.
pub fn overlap(a: &Meetings, b: &Meetings) -> bool
    ensures relation { IsTrue result ↔ SomeOverlap (meetings_of a.now) (meetings_of b.now) }
    ensures test { result ≡ some_overlap (meetings_of a.now) (meetings_of b.now) }
{
    if a.days() & b.days() == 0 {
        return false;
    }
    some_meet(a.as_slice(), b.as_slice())
}

fn some_meet(ones: &[Meeting], others: &[Meeting]) -> bool
    ensures { result ≡ some_overlap ones.now others.now }
{
    ones.iter().any(|one| meets_some(one, others))
}

fn meets_some(one: &Meeting, others: &[Meeting]) -> bool
    ensures { result ≡ list_any (overlaps one.now) others.now }
{
    others.iter().any(|other| meet(one, other))
}

fn meet(one: &Meeting, other: &Meeting) -> bool
    ensures { result ≡ overlaps one.now other.now }
{
    one.day == other.day && one.start < other.end && other.start < one.end
}
