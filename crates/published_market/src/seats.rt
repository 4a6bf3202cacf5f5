// Seats, used and all.
ghost use Rattle.std.specs.Prelude.{◌≡◌, IfOk, length, zip};

use market_units::NoMemory;
use std::alloc::Global;

/// Of each section how many seats are used, and how many there are, by ordinal.
pub(crate) fn used_seats(
    alloc: Global,
    used: &[u16],
    seats: &[u16],
) -> Result<Vec<(u16, u16)>, NoMemory>
    requires { length used.now ≡ length seats.now }
    ensures { IfOk result (λ all. all.items ≡ zip used.now seats.now) }
{
    let mut all = Vec::with_capacity(alloc, seats.len())?;
    'sections: for place in 0..seats.len() {
        all.push((used[place], seats[place]))?;
    }
    Ok(all)
}
