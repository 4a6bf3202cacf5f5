// The lines of a journal.
ghost use Rattle.std.specs.Prelude.{◌≡◌, ◌++◌, All, OnOk};
ghost use Rattle.preference_text.specs.Texts.{HasShortCommand, journal_text};

use crate::lines::put_entry;
use market_units::NoMemory;
use preference_desk::Entry;

/// Puts a line for each entry behind the text, in the entries' order. The only error is that memory
/// was not given.
pub(crate) fn put_journal(text: &mut Vec<u8>, journal: &[Entry]) -> Result<(), NoMemory>
    requires { All HasShortCommand journal.now }
    ensures { OnOk result (text.new.items ≡ text.old.items ++ journal_text journal.now) }
{
    'entries: for entry in journal {
        put_entry(text, entry)?;
    }
    Ok(())
}
