// The three kinds of amounts that a text tells.
ghost use Rattle.std.specs.Prelude.{◌≡◌};
ghost use Rattle.market_certificate.specs.Texts.{most_of, word_of};

use market_units::{MAX_BUDGET, MAX_PRICE};

/// What the amounts of a part of the text are: each kind has a word of its own and a greatest
/// amount.
#[derive(Clone, Copy)]
pub(crate) enum Amount {
    /// The students' budgets.
    Budget,
    /// The sections' prices that the search found.
    Start,
    /// The sections' prices of the second stage.
    Price,
}

/// The word with which the line of such an amount begins.
pub(crate) fn word_of(kind: Amount) -> &'static [u8]
    ensures { result.now ≡ word_of kind }
{
    match kind {
        Amount::Budget => b"budget",
        Amount::Start => b"start",
        Amount::Price => b"price",
    }
}

/// The greatest amount of this kind that a published text may have, in tokens.
pub(crate) fn most_of(kind: Amount) -> u32
    ensures { result ≡ most_of kind }
{
    match kind {
        Amount::Budget => MAX_BUDGET,
        Amount::Start | Amount::Price => MAX_PRICE,
    }
}
