//! What holds of names, numbers, subsets and limits: each call here does nothing, and its contract
//! is a law.
ghost use Rattle.market_units.specs.Laws.{EqualBytesEqualNames, OneNumberASpelling, OneIsEarlier, NotBothAreEarlier, EarlierThanEarlier};
ghost use Rattle.market_units.specs.Limits.{AreTheLimits};

/// Two names of equal bytes are equal.
pub fn equal_bytes_equal_names()
    ensures { EqualBytesEqualNames }
{}

/// Two numbers of equal spelling are equal: `read_number` of what `put_number` wrote is the number.
pub fn one_number_a_spelling()
    ensures { OneNumberASpelling }
{}

/// Of two different subsets of the same places, one is earlier.
pub fn one_is_earlier()
    ensures { OneIsEarlier }
{}

/// Of two subsets not both are earlier.
pub fn not_both_are_earlier()
    ensures { NotBothAreEarlier }
{}

/// What is earlier than an earlier subset is earlier.
pub fn earlier_than_earlier()
    ensures { EarlierThanEarlier }
{}

/// Each limit is the number that the table of limits has for it.
pub fn the_limits_are_these()
    ensures { AreTheLimits }
{}
