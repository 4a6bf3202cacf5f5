// What a search answers.
ghost use Rattle.std.specs.Prelude.{◌≡◌};
ghost use Rattle.tabu_search.specs.declared.results.SearchEnd.TheVariants.{NoMemory};

use market_units::Tokens;

/// The prices that a search found, with their error and the number of turns made.
#[derive(Drop)]
pub struct Found {
    /// The price of each section, at most the top.
    pub prices: Vec<Tokens>,
    /// The clearing error at these prices, at most the accepted one.
    pub error: u64,
    /// How many turns were made.
    pub turns: u32,
}

/// Why a search found no prices.
#[derive(Clone, Copy, Debug, PartialEq, Eq)]
pub enum SearchEnd {
    /// The least error of all visited vectors exceeds the accepted one.
    NoPrices {
        /// That least error.
        least: u64,
    },
    /// Memory was wanted and not given.
    NoMemory,
}

impl From<market_units::NoMemory> for SearchEnd {
    ghost from_gives = { λ _ end. end ≡ NoMemory };

    fn from(_: market_units::NoMemory) -> Self {
        SearchEnd::NoMemory
    }
}
