// The excess of a section, and the clearing error of all.
ghost use Rattle.std.specs.Prelude.{◌≡◌, ◌≤◌, All, length};
ghost use Rattle.clearing_error.specs.Errors.{excess, part, squared, error};

use market_units::{MAX_SECTIONS, MAX_STUDENTS, Tokens};

/// The excess of a section: the students who take it minus its seats, below 0 where seats are free.
/// The count is at most 2,000.
pub fn excess(count: u32, seats: u16) -> i32
    requires { count ≤ MAX_STUDENTS }
    ensures { result ≡ excess count seats }
{
    count as i32 - i32::from(seats)
}

/// The clearing error (Budish 2011), of which no root is taken: the sum of the squared parts of all
/// sections. A section's part is its excess where its price is above 0, and the greater of the
/// excess and 0 where it is 0, since free seats at price 0 are no error. There is a seat number and
/// a price for each count, at most 400 of them, and each count is at most 2,000.
pub fn error(counts: &[u32], seats: &[u16], prices: &[Tokens]) -> u64
    requires counts { All (λ count. count ≤ MAX_STUDENTS) counts.now }
    requires few { length counts.now ≤ MAX_SECTIONS }
    requires seats { length seats.now ≡ length counts.now }
    requires prices { length prices.now ≡ length counts.now }
    ensures { result ≡ error counts.now seats.now prices.now }
{
    let mut error = 0;
    for section in 0..counts.len() {
        error += squared_part(counts[section], seats[section], prices[section]);
    }
    error
}

// What a section adds to the error: the square of its part.
fn squared_part(count: u32, seats: u16, price: Tokens) -> u64
    requires { count ≤ MAX_STUDENTS }
    ensures value { result ≡ squared (part count seats price.0) }
    ensures small { result ≤ 4294836225 }
{
    let excess = excess(count, seats);
    let part = if price.0 > 0 { excess } else { excess.max(0) };
    let distance = u64::from(part.unsigned_abs());
    distance * distance
}
