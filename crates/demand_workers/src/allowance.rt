// How many students walks may ask.
ghost use Rattle.std.specs.Prelude.{◌≡◌, ◌<◌, ◌≤◌, ◌+◌, ◌*◌, ◌^◌, ℕ, length};
ghost use Rattle.demand_api.specs.{Crowds.top, Views.data_of};

use demand_api::Crowd;
use market_units::{MAX_SECTIONS, MAX_STUDENTS};

/// How many students walks to the least prices of so many pairs may ask in one call: for each pair
/// and student as many as the top has binary digits, and one more, less two rounds over all
/// students: one before the walks, for what is taken at the present prices, and one after them, for
/// what is taken at a least price.
pub(crate) fn walks_for(crowd: &Crowd, pairs: usize) -> u64
    requires { (1 ≤ pairs) × (pairs ≤ MAX_SECTIONS) }
    ensures { (digits : ℕ) → top (data_of crowd.now) < 2 ^ digits
        → result + 2 * length (data_of crowd.now).students
        ≤ pairs * length (data_of crowd.now).students * (digits + 1) }
{
    let students = crowd.menus.len() as u64;
    let digits = u64::from(digits_of(crowd.top().0));
    (pairs as u64 * (digits + 1) - 2) * students
}

// How many binary digits the number has.
fn digits_of(number: u32) -> u32
    requires { 1 ≤ number }
    ensures some { 1 ≤ result }
    ensures few { result ≤ 32 }
    ensures enough { number < 2 ^ result }
    ensures least { (digits : ℕ) → number < 2 ^ digits → result ≤ digits }
{
    u32::BITS - number.leading_zeros()
}
