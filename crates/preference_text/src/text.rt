// The whole text.
ghost use Rattle.std.specs.Prelude.{◌≡◌, All, IfOk};
ghost use Rattle.preference_desk.specs.DeskView.{entries_of, names_of};
ghost use Rattle.preference_desk.specs.MarketNames.{market_names};
ghost use Rattle.preference_text.specs.Texts.{HasShortCommand, preferences_text};

use crate::journal::put_journal;
use crate::preferences::put_students;
use course_catalog::Catalog;
use market_units::NoMemory;
use preference_desk::Desk;
use std::alloc::Global;
use student_roll::Roll;

/// The text of the desk's journal, and behind it the preferences of all students after it. The desk
/// is one for this catalogue and this roll, and the numbers of its entries' commands are from
/// -999,999 to 999,999, as they are where the commands were read from texts. `NoMemory` is the only
/// error.
pub fn preferences_text(
    alloc: Global,
    catalog: &Catalog,
    roll: &Roll,
    desk: &Desk,
) -> Result<Vec<u8>, NoMemory>
    requires names { names_of desk.now ≡ market_names catalog.now.sections roll.now.students }
    requires short { All HasShortCommand (entries_of desk.now) }
    ensures { IfOk result
        (λ text. text.items
        ≡ preferences_text catalog.now.sections roll.now.students (entries_of desk.now)) }
{
    let mut text = Vec::new(alloc);
    put_journal(&mut text, desk.journal())?;
    put_students(&mut text, catalog, roll, desk.closed())?;
    Ok(text)
}
