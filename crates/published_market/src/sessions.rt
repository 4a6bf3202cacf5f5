// Whether a journal is of sessions.
ghost use Rattle.std.specs.Prelude.{◌↔◌, All, IsTrue};
ghost use Rattle.market_certificate.specs.Publications.{IsSession};

use market_units::MAX_SESSIONS;
use preference_desk::Entry;

/// Whether each entry is of a session from 1 to 64, as a journal is after which a market can be
/// published.
pub fn are_sessions(journal: &[Entry]) -> bool
    ensures { IsTrue result ↔ All (λ entry. IsSession entry.session) journal.now }
{
    journal.iter().all(|entry| is_session(entry.session))
}

fn is_session(session: u16) -> bool
    ensures { IsTrue result ↔ IsSession session }
{
    (1..=MAX_SESSIONS).contains(&session)
}
