// The names that the desk knows.
ghost use Rattle.std.specs.Prelude.{◌≡◌, ◌<◌, true, false, length, IfOk, IfSome, IfNone};
ghost use Rattle.preference_desk.specs.DeskNames.{has_name, ordinal_of};
ghost use Rattle.preference_desk.specs.{MarketNames.market_names, NamesView.names_in};

use course_catalog::Catalog;
use market_units::{Name, NoMemory, SectionNo, StudentNo};
use std::alloc::Global;
use student_roll::Roll;

/// The students of a roll and the sections of a catalogue, by name.
#[derive(Drop)]
pub(crate) struct Names {
    catalog: Catalog,
    roll: Roll,
}

impl Names {
    /// The names of a market, from copies of its catalogue and its roll. The only error is that
    /// memory was not given.
    pub(crate) fn copy(alloc: Global, catalog: &Catalog, roll: &Roll) -> Result<Names, NoMemory>
        ensures { IfOk result
            (λ names. names_in names ≡ market_names catalog.now.sections roll.now.students) }
    {
        Ok(Names {
            catalog: catalog.copy(alloc)?,
            roll: roll.copy(alloc)?,
        })
    }

    /// The number of the student with this name; `None` where no student has it.
    pub(crate) fn student(&self, name: &Name) -> Option<StudentNo>
        ensures has { IfSome result
            (λ student. has_name (names_in self.now).students name.now ≡ true) }
        ensures ordinal { IfSome result
            (λ student. student.0 ≡ ordinal_of (names_in self.now).students name.now) }
        ensures within { IfSome result
            (λ student. student.0 < length (names_in self.now).students) }
        ensures none { IfNone result (has_name (names_in self.now).students name.now ≡ false) }
    {
        self.roll.find(name)
    }

    /// The number of the section with this name; `None` where no section has it.
    pub(crate) fn section(&self, name: &Name) -> Option<SectionNo>
        ensures has { IfSome result
            (λ section. has_name (names_in self.now).sections name.now ≡ true) }
        ensures ordinal { IfSome result
            (λ section. section.0 ≡ ordinal_of (names_in self.now).sections name.now) }
        ensures within { IfSome result
            (λ section. section.0 < length (names_in self.now).sections) }
        ensures none { IfNone result (has_name (names_in self.now).sections name.now ≡ false) }
    {
        self.catalog.find(name)
    }
}
