// The whole text.
ghost use Rattle.std.specs.Prelude.{◌≡◌, ◌<◌, ◌++◌, All, IfOk, OnOk, length, map};
ghost use Rattle.bundle_rules.specs.Bundles.{sections_of};
ghost use Rattle.demand_text.specs.Taken.{IsTakenBy};
ghost use Rattle.demand_text.specs.Texts.{count_line, demand_text, taken_line};
ghost use Rattle.market_certificate.specs.{Lines.joined, Texts.each_line};
ghost use Rattle.course_catalog.specs.Sections.{section_names};
ghost use Rattle.student_roll.specs.Students.{names_of};

use crate::Taken;
use crate::lines::{put_count, put_order, put_taken};
use bundle_rules::Bundle;
use course_catalog::Catalog;
use market_certificate::put_error;
use market_units::{NoMemory, SectionNo, StudentNo};
use preference_desk::Entry;
use std::alloc::Global;
use student_roll::Roll;

/// The text of what is taken after a journal by the students of a roll, who choose among the
/// sections of a catalogue. `NoMemory` is the only error.
pub fn demand_text(
    alloc: Global,
    catalog: &Catalog,
    roll: &Roll,
    journal: &[Entry],
    taken: &Taken,
) -> Result<Vec<u8>, NoMemory>
    requires { IsTakenBy (length roll.now.students) (length catalog.now.sections) taken.now }
    ensures { IfOk result
        (λ text. text.items
        ≡ demand_text catalog.now.sections roll.now.students journal.now taken.now) }
{
    let mut text = Vec::new(alloc);
    put_order(&mut text, journal)?;
    put_bundles(&mut text, catalog, roll, taken.bundles())?;
    put_counts(&mut text, catalog, taken.counts())?;
    put_error(&mut text, taken.error())?;
    Ok(text)
}

// Puts the line of each student's bundle behind the text.
fn put_bundles(
    text: &mut Vec<u8>,
    catalog: &Catalog,
    roll: &Roll,
    bundles: &[Bundle],
) -> Result<(), NoMemory>
    requires each { length bundles.now ≡ length roll.now.students }
    requires within { All (λ bundle. All (λ s. s < length catalog.now.sections) bundle)
        (map sections_of bundles.now) }
    ensures { OnOk result
        (text.new.items
        ≡ text.old.items
        ++ joined
        (each_line (taken_line (section_names catalog.now.sections))
        (names_of roll.now.students) (map sections_of bundles.now))) }
{
    'students: for student in 0..roll.len() {
        let name = roll.name(StudentNo(student));
        put_taken(text, catalog, &name, &bundles[usize::from(student)])?;
    }
    Ok(())
}

// Puts the line of each section's count behind the text.
fn put_counts(text: &mut Vec<u8>, catalog: &Catalog, counts: &[u32]) -> Result<(), NoMemory>
    requires { length counts.now ≡ length catalog.now.sections }
    ensures { OnOk result
        (text.new.items
        ≡ text.old.items
        ++ joined (each_line count_line (section_names catalog.now.sections) counts.now)) }
{
    'sections: for section in 0..catalog.len() {
        let name = catalog.name(SectionNo(section));
        put_count(text, &name, counts[usize::from(section)])?;
    }
    Ok(())
}
