// The whole text.
ghost use Rattle.std.specs.Prelude.{◌≡◌, ◌<◌, ◌++◌, All, IfOk, OnOk, map};
ghost use Rattle.std.specs.List.{flat_map, range_with_len};
ghost use Rattle.market_certificate.specs.Lines.{joined};
ghost use Rattle.dropadd_desk.specs.HallView.{market_of, state_of};
ghost use Rattle.dropadd_desk.specs.Market.{section_count, student_count};
ghost use Rattle.dropadd_desk.specs.Replies.{NamesInRange};
ghost use Rattle.dropadd_hall.specs.Texts.{entry_line, hall_text, held_line, seats_line, wait_lines};

use crate::hall::ClosedHall;
use crate::lines::{put_entry, put_held, put_seats, put_waiting};
use chronicle::Step;
use course_catalog::Catalog;
use dropadd_desk::HallDesk;
use market_units::{NoMemory, SectionNo, StudentNo};
use std::alloc::Global;
use student_roll::Roll;

// A desk, and the catalogue and the roll for which it was opened.
#[derive(Clone, Copy)]
struct NamedDesk<'a> {
    catalog: &'a Catalog,
    roll: &'a Roll,
    desk: &'a HallDesk,
    ghost market: { market_of desk.now ≡ record { catalog = catalog.now; roll = roll.now } },
}

/// The text of what was requested and replied in a hall, and of what is held, waited for and used
/// after it. The desk is one for this catalogue and this roll, and the journal's replies name
/// sections and students of theirs. `NoMemory` is the only error.
pub fn put_hall(
    alloc: Global,
    catalog: &Catalog,
    roll: &Roll,
    hall: &ClosedHall,
) -> Result<Vec<u8>, NoMemory>
    requires market { market_of hall.now.desk ≡ record { catalog = catalog.now; roll = roll.now } }
    requires named { All
        (λ step. NamesInRange (record { catalog = catalog.now; roll = roll.now }) step.reply)
        hall.now.journal }
    ensures { IfOk result
        (λ text. text.items
        ≡ hall_text (record { catalog = catalog.now; roll = roll.now }) hall.now.journal
        (state_of hall.now.desk)) }
{
    let mut text = Vec::new(alloc);
    put_entries(&mut text, catalog, roll, hall.journal.steps())?;
    let named = NamedDesk {
        catalog,
        roll,
        desk: &hall.desk,
    };
    put_bundles(&mut text, &named)?;
    put_lists(&mut text, &named)?;
    put_all_seats(&mut text, &named)?;
    Ok(text)
}

// Puts the line of each step behind the text.
fn put_entries(
    text: &mut Vec<u8>,
    catalog: &Catalog,
    roll: &Roll,
    steps: &[Step<HallDesk>],
) -> Result<(), NoMemory>
    requires { All
        (λ step. NamesInRange (record { catalog = catalog.now; roll = roll.now }) step.reply)
        steps.now }
    ensures { OnOk result
        (text.new.items
        ≡ text.old.items
        ++ joined
        (map (entry_line (record { catalog = catalog.now; roll = roll.now }))
        steps.now)) }
{
    'steps: for step in steps {
        put_entry(text, catalog, roll, step)?;
    }
    Ok(())
}

// Puts the line of what each student holds behind the text.
fn put_bundles(text: &mut Vec<u8>, named: &NamedDesk) -> Result<(), NoMemory>
    ensures { OnOk result
        (text.new.items
        ≡ text.old.items
        ++ joined
        (map (held_line (market_of named.now.desk.now) (state_of named.now.desk.now))
        (range_with_len 0 (student_count (market_of named.now.desk.now))))) }
{
    let desk = named.desk;
    let catalog = named.catalog;
    let roll = named.roll;
    'students: for student in 0..roll.len() {
        let student = StudentNo(student);
        put_held(text, catalog, &roll.name(student), &desk.bundle(student))?;
    }
    Ok(())
}

// Puts the line of each section's waiting list behind the text, where anybody waits.
fn put_lists(text: &mut Vec<u8>, named: &NamedDesk) -> Result<(), NoMemory>
    ensures { OnOk result
        (text.new.items
        ≡ text.old.items
        ++ joined
        (flat_map (wait_lines (market_of named.now.desk.now) (state_of named.now.desk.now))
        (range_with_len 0 (section_count (market_of named.now.desk.now))))) }
{
    let desk = named.desk;
    let catalog = named.catalog;
    let roll = named.roll;
    'sections: for section in 0..catalog.len() {
        let section = SectionNo(section);
        let waiting = desk.waiting(section);
        if waiting.is_empty() {
            continue;
        }
        put_waiting(text, roll, &catalog.name(section), waiting)?;
    }
    Ok(())
}

// Puts the line of each section's seats behind the text.
fn put_all_seats(text: &mut Vec<u8>, named: &NamedDesk) -> Result<(), NoMemory>
    ensures { OnOk result
        (text.new.items
        ≡ text.old.items
        ++ joined
        (map (seats_line (market_of named.now.desk.now) (state_of named.now.desk.now))
        (range_with_len 0 (section_count (market_of named.now.desk.now))))) }
{
    let desk = named.desk;
    let catalog = named.catalog;
    'sections: for section in 0..catalog.len() {
        let section = SectionNo(section);
        let name = catalog.name(section);
        put_seats(text, &name, desk.holders(section), catalog.seats(section))?;
    }
    Ok(())
}
