// What every bound of a node stands on.
ghost use Rattle.std.specs.Prelude.{◌≡◌, ◌≤ℤ◌, ◌*ℤ◌, neg_ℤ, pos};

/// 1000 times the utility of the chosen sections: every bound of their node is as much above it as
/// can still be added. It is within 3,000,000,000,000 of 0.
#[derive(Clone, Copy)]
pub(crate) struct Base {
    pub(crate) number: i64,
    ghost low: { neg_ℤ (pos 3000000000000) ≤ℤ number },
    ghost high: { number ≤ℤ pos 3000000000000 },
}

impl Base {
    /// The base of chosen sections of this utility.
    pub(crate) fn of(utility: i32) -> Base
        ensures { result.number ≡ pos 1000 *ℤ utility }
    {
        Base {
            number: 1000 * i64::from(utility),
        }
    }
}
