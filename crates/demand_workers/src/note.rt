// What one student took.
ghost use Rattle.std.specs.Prelude.{◌≡◌, length};
ghost use Rattle.market_units.specs.declared.limits.TheConstants.{MAX_RATINGS};

use demand_oracle::Best;
use market_units::{MAX_RATINGS, StudentNo, Tokens};

/// The best bundles of a student where the sections of its menu had these prices, in the order of
/// the menu. What stands past them says nothing.
#[derive(Clone, Copy)]
pub struct Note {
    pub student: StudentNo,
    pub best: Best,
    pub prices: [Tokens; MAX_RATINGS],
    pub ghost whole: { length prices ≡ MAX_RATINGS },
}
