// Single lines, written behind a text.
ghost use Rattle.std.specs.Prelude.{◌≡◌, ◌<◌, ◌++◌, ◌∷◌, [], All, OnOk, length};
ghost use Rattle.std.specs.Fmt.{decimal};
ghost use Rattle.market_units.specs.Name.{name_bytes};
ghost use Rattle.bundle_rules.specs.Bundles.{sections_of};
ghost use Rattle.course_catalog.specs.Sections.{section_names};
ghost use Rattle.market_certificate.specs.Texts.{order_line};
ghost use Rattle.preference_desk.specs.{Journals.sessions_of, declared.entry.Entry.Entry};
ghost use Rattle.demand_text.specs.Texts.{count_line, taken_line};
ghost use Rattle.std.specs.List.{flat_map};

use bundle_rules::Bundle;
use course_catalog::Catalog;
use market_certificate::{put_bundle_field, put_field, put_number_field};
use market_units::{Name, NoMemory};
use preference_desk::Entry;

/// Puts the line of a journal's order behind the text: the session of each entry. The error is want
/// of memory.
pub fn put_order(text: &mut Vec<u8>, journal: &[Entry]) -> Result<(), NoMemory>
    ensures { OnOk result
        (text.new.items ≡ text.old.items ++ order_line (sessions_of journal.now) ++ 10 ∷ []) }
{
    text.extend_from_slice(b"order")?;
    put_sessions(text, journal)?;
    text.push(b'\n')?;
    Ok(())
}

// Puts a space and the session of each entry behind the text.
fn put_sessions(text: &mut Vec<u8>, journal: &[Entry]) -> Result<(), NoMemory>
    ensures { OnOk result
        (text.new.items
        ≡ text.old.items ++ flat_map (λ n. 32 ∷ decimal n) (sessions_of journal.now)) }
{
    'entries: for entry in journal {
        put_number_field(text, u64::from(entry.session))?;
    }
    Ok(())
}

/// Puts the line of what a student takes behind the text: its name and its bundle.
pub(crate) fn put_taken(
    text: &mut Vec<u8>,
    catalog: &Catalog,
    student: &Name,
    bundle: &Bundle,
) -> Result<(), NoMemory>
    requires { All (λ s. s < length catalog.now.sections) (sections_of bundle.now) }
    ensures { OnOk result
        (text.new.items
        ≡ text.old.items
        ++ taken_line (section_names catalog.now.sections) (name_bytes student.now)
        (sections_of bundle.now)
        ++ 10 ∷ []) }
{
    text.extend_from_slice(b"bundle")?;
    put_field(text, student.bytes())?;
    put_bundle_field(text, catalog, bundle)?;
    text.push(b'\n')?;
    Ok(())
}

/// Puts the line of a section behind the text: its name, and how many students take it.
pub(crate) fn put_count(text: &mut Vec<u8>, section: &Name, count: u32) -> Result<(), NoMemory>
    ensures { OnOk result
        (text.new.items ≡ text.old.items ++ count_line (name_bytes section.now) count ++ 10 ∷ []) }
{
    text.extend_from_slice(b"count")?;
    put_field(text, section.bytes())?;
    put_number_field(text, u64::from(count))?;
    text.push(b'\n')?;
    Ok(())
}
