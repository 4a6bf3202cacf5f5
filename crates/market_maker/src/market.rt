// The five texts together.
ghost use Rattle.std.specs.Prelude.{◌≤◌, ◌≡◌, IfOk};
ghost use Rattle.market_maker.specs.{Catalogs.catalog_text, Rolls.roll_text};
ghost use Rattle.market_maker.specs.Sessions.{first_text, second_text};
ghost use Rattle.market_maker.specs.Settings.{settings_text};

use crate::catalog::catalog_text;
use crate::roll::roll_text;
use crate::sessions::{first_text, second_text};
use crate::settings::settings_text;
use crate::wishes::Wishes;
use market_units::{MAX_ACCEPT, MAX_SECTIONS, MAX_STUDENTS, NoMemory};
use std::alloc::Global;

/// A made market: its inputs, each as a text that begins without a byte order mark.
#[derive(Debug, Drop)]
pub struct Made {
    /// The catalogue, of version 1: the columns are section, course, seats, credits and meetings.
    pub catalog: Vec<u8>,
    /// The roll, of version 1: the columns are student, budget, credits and courses.
    pub roll: Vec<u8>,
    /// The settings, as one object.
    pub settings: Vec<u8>,
    /// The session of the students of odd number.
    pub first: Vec<u8>,
    /// The session of the students of even number.
    pub second: Vec<u8>,
}

/// The market of these numbers: 1 to 2,000 students, 1 to 400 sections, and a clearing error of at
/// most 10^12 that its settings accept. The seed is that of the settings, and the ratings depend on
/// it. `NoMemory` is the only error.
pub fn make(
    alloc: Global,
    seed: u64,
    students: u16,
    sections: u16,
    accept: u64,
) -> Result<Made, NoMemory>
    requires some_students { 1 ≤ students }
    requires few_students { students ≤ MAX_STUDENTS }
    requires some_sections { 1 ≤ sections }
    requires few_sections { sections ≤ MAX_SECTIONS }
    requires accept { accept ≤ MAX_ACCEPT }
    ensures catalog { IfOk result (λ made. made.catalog.items ≡ catalog_text students sections) }
    ensures roll { IfOk result (λ made. made.roll.items ≡ roll_text students) }
    ensures settings { IfOk result (λ made. made.settings.items ≡ settings_text seed accept) }
    ensures first { IfOk result (λ made. made.first.items ≡ first_text seed students sections) }
    ensures second { IfOk result (λ made. made.second.items ≡ second_text seed students sections) }
{
    let wishes = Wishes { seed, sections };
    Ok(Made {
        catalog: catalog_text(alloc, students, sections)?,
        roll: roll_text(alloc, students)?,
        settings: settings_text(alloc, seed, accept)?,
        first: first_text(alloc, wishes, students)?,
        second: second_text(alloc, wishes, students)?,
    })
}
