// The catalogue.
ghost use Rattle.std.specs.Prelude.{◌≡◌, ◌<◌, ◌≤◌, ◌++◌, IfOk, OnOk};
ghost use Rattle.market_maker.specs.Catalogs.{catalog_text, meeting_of, section_row};
ghost use Rattle.market_maker.specs.Lines.{ended};

use crate::lines::{put_clock, put_name_field, put_number_field};
use market_units::NoMemory;
use std::alloc::Global;

/// The text of a catalogue of so many sections. Their seats go by the number of students.
pub(crate) fn catalog_text(alloc: Global, students: u16, sections: u16) -> Result<Vec<u8>, NoMemory>
    requires { sections < 65535 }
    ensures { IfOk result (λ text. text.items ≡ catalog_text students sections) }
{
    let mut text = Vec::new(alloc);
    text.extend_from_slice(b"section,course,seats,credits,meetings\n")?;
    'sections: for earlier in 0..sections {
        put_section(&mut text, students, earlier + 1)?;
    }
    Ok(text)
}

// Puts the row of the section behind the text.
fn put_section(text: &mut Vec<u8>, students: u16, section: u16) -> Result<(), NoMemory>
    requires { section < 65535 }
    ensures { OnOk result
        (text.new.items ≡ text.old.items ++ ended (section_row students section)) }
{
    put_name_field(text, b'C', section)?;
    put_name_field(text, b'K', (section + 1) / 2)?;
    put_number_field(text, 1 + students / 4)?;
    put_number_field(text, 1 + section % 3)?;
    put_meeting(text, section)?;
    text.push(b'\n')?;
    Ok(())
}

// Puts the section's meeting behind the text.
fn put_meeting(text: &mut Vec<u8>, section: u16) -> Result<(), NoMemory>
    ensures { OnOk result (text.new.items ≡ text.old.items ++ meeting_of section) }
{
    let start = 480 + 90 * (section % 6);
    text.push(b"MTWRF"[usize::from(section % 5)])?;
    put_clock(text, start)?;
    text.push(b'-')?;
    put_clock(text, start + 80)
}
