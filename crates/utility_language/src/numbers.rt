// Numbers of at most six digits, with a sign where they are negative.
ghost use Rattle.std.specs.Prelude.{ℤ, ◌≢◌, ◌<◌, ◌^◌, unsigned_abs, IfNone, IfSome};
ghost use Rattle.std.specs.Fmt.{signed_decimal};
ghost use Rattle.utility_language.specs.Commands.{IsShort};

use market_units::read_number;

// The greatest number of six digits.
const MAX_SHORT: u64 = 999_999;

/// The whole number that a word spells in at most six digits: no zeros in front, and a minus sign
/// in front of a negative number. `None` for every other word.
pub(crate) fn read_short(word: &[u8]) -> Option<i32>
    ensures spelled { IfSome result (IsShort word.now) }
    ensures none { IfNone result ((n : ℤ) → unsigned_abs n < 10 ^ 6 → word.now ≢ signed_decimal n) }
{
    if word.is_empty() || word[0] != b'-' {
        let n = read_number(word, MAX_SHORT)?;
        return Some(n as i32);
    }
    let n = read_number(&word[1..], MAX_SHORT)?;
    if n == 0 {
        return None;
    }
    Some(-(n as i32))
}
