// The order of a journal.
ghost use Rattle.std.specs.Prelude.{◌≡◌, IfOk, All};
ghost use Rattle.market_certificate.specs.Publications.{IsSession};
ghost use Rattle.preference_desk.specs.{Journals.sessions_of, declared.entry.Entry.Entry};

use market_units::NoMemory;
use preference_desk::Entry;
use std::alloc::Global;

/// For each entry of the journal, in order, the number of the session that posted it, from 1 to 64.
pub(crate) fn order_of(alloc: Global, journal: &[Entry]) -> Result<Vec<u8>, NoMemory>
    requires { All (λ entry. IsSession entry.session) journal.now }
    ensures { IfOk result (λ order. order.items ≡ sessions_of journal.now) }
{
    let mut order = Vec::with_capacity(alloc, journal.len())?;
    'entries: for entry in journal {
        order.push(entry.session as u8)?;
    }
    Ok(order)
}
