// A market whose students were heard.
ghost use Rattle.std.specs.Prelude.{◌≡◌, All};
ghost use Rattle.market_certificate.specs.Publications.{IsSession};
ghost use Rattle.preference_desk.specs.DeskView.{entries_of, names_of};
ghost use Rattle.published_parts.specs.{Markets.names_in, Views.market_in};

use preference_desk::Desk;
use published_parts::Market;

/// A market, and the desk at which its students were heard, which knows just the market's students
/// and sections. Each entry of the desk's journal is of a session from 1 to 64.
#[derive(Clone, Copy)]
pub struct MarketDesk<'a> {
    /// The market.
    pub market: Market<'a>,
    /// The desk.
    pub desk: &'a Desk,
    pub ghost names: { names_of desk.now ≡ names_in (market_in market) },
    pub ghost sessions: { All (λ entry. IsSession entry.session) (entries_of desk.now) },
}
