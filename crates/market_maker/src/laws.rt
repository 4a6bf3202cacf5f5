//! What holds of every made market: the call here does nothing, and its contract is a law.
ghost use Rattle.market_maker.specs.Laws.{MadeMarketsAreWithinLimits};

/// The texts of a made market have at most 16,777,216 bytes each, and its sessions at most 200,000
/// lines together.
pub fn made_markets_are_within_limits()
    ensures { MadeMarketsAreWithinLimits }
{}
