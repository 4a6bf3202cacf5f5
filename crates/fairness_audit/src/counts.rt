// The counts of rows, added up.
ghost use Rattle.std.specs.Prelude.{◌≡◌, ◌≤◌, ◌+◌, ◌*◌, All, length, map};
ghost use Rattle.market_units.specs.Totals.{total};
ghost use Rattle.fairness_audit.specs.{Rows.RowData, Texts.IsRowAmong, Views.row_of};

use crate::row::EnvyRow;
use market_units::MAX_STUDENTS;

/// The three counts of a row, or of several together.
#[derive(Clone, Copy)]
pub struct Counts {
    pub lower: u32,
    pub higher: u32,
    pub beyond: u32,
}

impl Counts {
    /// The three counts of one student's row.
    pub(crate) fn of(row: &EnvyRow) -> Counts
        ensures value { result
            ≡ record { lower = row.now.lower; higher = row.now.higher; beyond = row.now.beyond } }
        ensures few { (result.lower ≤ 65535) × (result.higher ≤ 65535) × (result.beyond ≤ 65535) }
    {
        Counts {
            lower: u32::from(row.lower),
            higher: u32::from(row.higher),
            beyond: u32::from(row.beyond),
        }
    }
}

/// The counts of all rows, added up. There are at most 2,000 rows.
pub(crate) fn sum_up(rows: &[EnvyRow]) -> Counts
    requires { length rows.now ≤ MAX_STUDENTS }
    ensures lower { result.lower ≡ total (λ (row : RowData). row.lower) (map row_of rows.now) }
    ensures higher { result.higher ≡ total (λ (row : RowData). row.higher) (map row_of rows.now) }
    ensures beyond { result.beyond ≡ total (λ (row : RowData). row.beyond) (map row_of rows.now) }
    ensures few { (result.lower ≤ 65535 * length rows.now)
        × (result.higher ≤ 65535 * length rows.now) × (result.beyond ≤ 65535 * length rows.now) }
{
    match rows {
        [] => Counts {
            lower: 0,
            higher: 0,
            beyond: 0,
        },
        [row, more @ ..] => {
            let first = Counts::of(row);
            let others = sum_up(more);
            Counts {
                lower: first.lower + others.lower,
                higher: first.higher + others.higher,
                beyond: first.beyond + others.beyond,
            }
        }
    }
}
