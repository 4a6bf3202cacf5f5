// What students take at prices.
ghost use Rattle.std.specs.Prelude.{◌≡◌, ℕ, nat_lt};
ghost use Rattle.std.specs.FinSet as set;
ghost use Rattle.demand_api.specs.{Asking.ArePricesFor, Views.data_of};
ghost use Rattle.oversubscription_stage.specs.Rounds.{AreTaken};

use bundle_rules::Bundle;
use demand_api::Crowd;
use market_units::{SectionSet, Tokens};

/// A crowd, prices that may be asked of it, the set of its sections, and what each student takes at
/// these prices.
#[derive(Clone, Copy)]
pub(crate) struct Taken<'a> {
    pub crowd: &'a Crowd,
    pub prices: &'a [Tokens],
    pub allowed: &'a SectionSet,
    pub bundles: &'a [Bundle],
    pub ghost priced: { ArePricesFor (data_of crowd.now) prices.now },
    pub ghost all: { (s : ℕ) → set.contains allowed.now s ≡ nat_lt s crowd.now.sections },
    pub ghost taken: { AreTaken (data_of crowd.now) prices.now bundles.now },
}
