// A vector of prices, with counts and seats.
ghost use Rattle.std.specs.Prelude.{◌≡◌, ◌≤◌, All, length};
ghost use Rattle.market_units.specs.declared.limits.TheConstants.{MAX_SECTIONS, MAX_STUDENTS};

use market_units::Tokens;

/// A vector of prices, with a count and a seat number for each section, by ordinal. There are at
/// most 400 sections, and each count is at most 2,000.
#[derive(Clone, Copy)]
pub(crate) struct Taken<'a> {
    pub(crate) prices: &'a [Tokens],
    pub(crate) counts: &'a [u32],
    pub(crate) seats: &'a [u16],
    ghost sections: { length prices.now ≤ MAX_SECTIONS },
    ghost counts_each: { length counts.now ≡ length prices.now },
    ghost seats_each: { length seats.now ≡ length prices.now },
    ghost few: { All (λ count. count ≤ MAX_STUDENTS) counts.now },
}
