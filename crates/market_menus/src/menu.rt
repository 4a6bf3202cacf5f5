// The menus of the students.
ghost use Rattle.std.specs.Prelude.{◌≡◌, ◌<◌, All, IfOk, length};
ghost use Rattle.preference_desk.specs.PreferencesView.{preferences_of, wanted_by};
ghost use Rattle.preference_desk.specs.StudentPreferences.{SectionsBelow};
ghost use Rattle.market_menus.specs.{MenusOf.AreMenusOf, MenusOf.IsMenuOf, Students.student_at};

use crate::clashes::clashes_of;
use crate::pairs::pairs_of;
use crate::places::{Places, places_of};
use bundle_rules::Menu;
use course_catalog::Catalog;
use market_units::{MAX_RATINGS, NoMemory, StudentNo};
use preference_desk::Preferences;
use std::alloc::Global;
use student_roll::Roll;

// At most this many places are on a menu.
const PLACES: u8 = MAX_RATINGS as u8;

// The closed preferences of a market: those of each student of the roll, on sections of the
// catalogue.
#[derive(Clone, Copy)]
struct Closed<'a> {
    catalog: &'a Catalog,
    roll: &'a Roll,
    preferences: &'a Preferences,
    ghost students: { length (preferences_of preferences.now) ≡ length roll.now.students },
    ghost sections: { All (SectionsBelow (length catalog.now.sections))
        (preferences_of preferences.now) },
}

/// The menu of each student of the roll, in file order: the sections that the student rates, with
/// the catalogue's courses, credits and clashes, the adjustments of the pairs both of whose
/// sections are rated, and the roll's caps.
pub fn menus(
    alloc: Global,
    catalog: &Catalog,
    roll: &Roll,
    preferences: &Preferences,
) -> Result<Vec<Menu>, NoMemory>
    requires students { length (preferences_of preferences.now) ≡ length roll.now.students }
    requires sections { All (SectionsBelow (length catalog.now.sections))
        (preferences_of preferences.now) }
    ensures { IfOk result
        (λ menus. AreMenusOf catalog.now.sections roll.now.students (preferences_of preferences.now)
        menus.items) }
{
    let closed = Closed {
        catalog,
        roll,
        preferences,
    };
    let students = roll.len();
    let mut menus = Vec::with_capacity(alloc, usize::from(students))?;
    'students: for student in 0..students {
        menus.push(menu_of(alloc, &closed, StudentNo(student))?)?;
    }
    Ok(menus)
}

// The menu of one student.
fn menu_of(alloc: Global, closed: &Closed, student: StudentNo) -> Result<Menu, NoMemory>
    requires { student.0 < length closed.now.roll.now.students }
    ensures { IfOk result
        (λ menu. IsMenuOf closed.now.catalog.now.sections
        (student_at closed.now.roll.now.students student.0)
        (wanted_by closed.now.preferences.now student.0) menu) }
{
    let Closed {
        catalog,
        roll,
        preferences,
    } = *closed;
    let _few_sections = catalog.len();
    let rated = places_of(alloc, catalog, preferences.ratings(student))?;
    let places = Places {
        catalog,
        rated: &rated,
    };
    let pairs = pairs_of(alloc, &places, preferences.pairs(student))?;
    let clashes = clashes_of(alloc, &places)?;
    let menu = Menu::build(
        alloc,
        &rated,
        &pairs,
        &clashes,
        roll.credits(student),
        roll.courses(student),
    )?;
    prove!(menu.len() <= PLACES);
    Ok(menu)
}
