// What is remembered of a crowd.
ghost use Rattle.std.specs.Prelude.{◌≡◌, ◌↔◌, ℕ, IsTrue, length, nat_lt};
ghost use Rattle.std.specs.Arc.{arc_value};
ghost use Rattle.std.specs.FinSet as set;
ghost use Rattle.demand_api.specs.{Asking.ArePricesFor, Views.data_of};
ghost use Rattle.demand_workers.specs.Remembered.{AreTaken};

use bundle_rules::Bundle;
use demand_api::Crowd;
use market_units::{SectionSet, Tokens};
use std::sync::Arc;

/// A crowd, prices, and what each of its students takes at them.
#[derive(Drop)]
pub struct Remembered {
    pub crowd: Arc<Crowd>,
    // All sections of the crowd: those that a student may take.
    pub allowed: SectionSet,
    pub prices: Vec<Tokens>,
    pub bundles: Vec<Bundle>,
    pub ghost every: { (s : ℕ) → set.contains allowed s ≡ nat_lt s (arc_value crowd).sections },
    pub ghost priced: { ArePricesFor (data_of (arc_value crowd)) prices.items },
    pub ghost each: { length bundles.items ≡ length (arc_value crowd).menus.items },
    pub ghost taken: { AreTaken (data_of (arc_value crowd)) prices.items bundles.items },
}

/// Whether these are the same prices.
pub(crate) fn are_same(one: &[Tokens], other: &[Tokens]) -> bool
    ensures { IsTrue result ↔ one.now ≡ other.now }
{
    one == other
}
