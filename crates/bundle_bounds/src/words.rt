// Words of numbers below 64: bit n of one stands for the number n.
ghost use Rattle.std.specs.Prelude.{◌≡◌, ◌≢◌, ◌<◌, ◌==◌, ℕ};
ghost use Rattle.std.specs.Int.{bit_at};

/// Whether the word has the number.
pub(crate) fn is_in(word: u64, number: u8) -> bool
    requires { number < 64 }
    ensures { result ≡ (bit_at word number == 1) }
{
    (word >> number) & 1 == 1
}

/// The word with the number too.
pub(crate) fn with(word: u64, number: u8) -> u64
    requires { number < 64 }
    ensures same { bit_at result number ≡ 1 }
    ensures others { (other : ℕ) → other ≢ number → bit_at result other ≡ bit_at word other }
{
    word | 1 << number
}
