// What chosen places hope for, and how many more fit.
ghost use Rattle.std.specs.Prelude.{◌≡◌, ◌<◌, ◌≤◌, ◌*◌, ℕ, All, length, slice_index};
ghost use Rattle.market_units.specs.Totals.{total};

use crate::tables::PLACES;
use market_units::{MAX_COURSES, MAX_RATINGS};

/// What the adjustments of the chosen places can add: their numbers in a row of the table of hopes,
/// added up.
pub(crate) fn hopes_of(row: &[u16; PLACES], chosen: &[u8]) -> u32
    requires on_menu { All (λ place. place < MAX_RATINGS) chosen.now }
    requires few { length chosen.now ≤ MAX_COURSES }
    ensures value { result ≡ total (slice_index row.now) chosen.now }
    ensures high { result ≤ 65535 * length chosen.now }
{
    match chosen {
        [] => 0,
        [place, more @ ..] => u32::from(row[usize::from(*place)]) + hopes_of(row, more),
    }
}

/// How many more sections fit, where the lightest has so many credits: never fewer than do, and at
/// most as many as there are courses left. Without this number flat ratings open a million nodes.
pub(crate) fn fitting(courses: u8, credits: u32, lightest: u16) -> u8
    ensures within { result ≤ courses }
    ensures enough { (count : ℕ) → count ≤ courses → count * lightest ≤ credits → count ≤ result }
{
    if u32::from(courses) * u32::from(lightest) <= credits {
        return courses;
    }
    fitting(courses - 1, credits, lightest)
}
