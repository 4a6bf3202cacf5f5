// The unit in which the table of what can be reached counts tokens.
ghost use Rattle.std.specs.Prelude.{◌≡◌, ◌<◌, ◌/◌, ◌^◌, min};

use crate::tables::UNITS;
use market_units::Tokens;

/// A unit of tokens: 2 to the power of the shift, which is below 32, so that a node divides by a
/// shift.
#[derive(Clone, Copy)]
pub(crate) struct Unit {
    pub(crate) shift: u32,
    ghost short: { shift < 32 },
}

impl Unit {
    /// The smallest unit of which a budget has fewer than the table has columns.
    pub(crate) fn for_budget(budget: Tokens) -> Unit {
        for shift in 0..31 {
            if budget.0 >> shift < UNITS as u32 {
                return Unit { shift };
            }
        }
        Unit { shift: 31 }
    }

    /// The last column of the table that is asked where so much is left.
    pub(crate) fn last_column(self, budget: Tokens) -> usize
        ensures { result ≡ min 63 (budget.0 / 2 ^ self.shift) }
    {
        self.whole_in(budget.0).min(UNITS as u32 - 1) as usize
    }

    /// How many whole units are in so many tokens. Prices and what is left are both rounded down,
    /// so nothing affordable is left out.
    #[inline(always)]
    pub(crate) fn whole_in(self, tokens: u32) -> u32
        ensures { result ≡ tokens / 2 ^ self.shift }
    {
        tokens >> self.shift
    }
}
