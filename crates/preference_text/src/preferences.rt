// The lines of what the students want.
ghost use Rattle.std.specs.Prelude.{◌≡◌, ◌<◌, ◌++◌, All, OnOk, length, map};
ghost use Rattle.market_units.specs.Name.{name_bytes};
ghost use Rattle.preference_desk.specs.PreferencesView.{preferences_of, wanted_by};
ghost use Rattle.preference_desk.specs.Rows.{pair_entry, rating_entry};
ghost use Rattle.preference_desk.specs.StudentPreferences.{SectionsBelow};
ghost use Rattle.preference_text.specs.Texts.{adjustments_text, ratings_text, student_text, wanted_text};

use crate::lines::{put_adjustment, put_rating};
use course_catalog::Catalog;
use market_units::{Name, NoMemory, SectionNo, StudentNo};
use preference_desk::Preferences;
use student_roll::Roll;

/// Puts the lines of what each student wants behind the text, in the roll's order. The only error
/// is that memory was not given.
pub(crate) fn put_students(
    text: &mut Vec<u8>,
    catalog: &Catalog,
    roll: &Roll,
    preferences: &Preferences,
) -> Result<(), NoMemory>
    requires students { length (preferences_of preferences.now) ≡ length roll.now.students }
    requires sections { All (SectionsBelow (length catalog.now.sections))
        (preferences_of preferences.now) }
    ensures { OnOk result
        (text.new.items
        ≡ text.old.items
        ++ wanted_text catalog.now.sections roll.now.students
        (preferences_of preferences.now)) }
{
    'students: for number in 0..roll.len() {
        let student = StudentNo(number);
        put_student(text, catalog, roll.name(student), preferences, student)?;
    }
    Ok(())
}

// Puts the lines of one student behind the text.
fn put_student(
    text: &mut Vec<u8>,
    catalog: &Catalog,
    name: Name,
    preferences: &Preferences,
    student: StudentNo,
) -> Result<(), NoMemory>
    requires student { student.0 < length (preferences_of preferences.now) }
    requires sections { All (SectionsBelow (length catalog.now.sections))
        (preferences_of preferences.now) }
    ensures { OnOk result
        (text.new.items
        ≡ text.old.items
        ++ student_text catalog.now.sections (name_bytes name)
        (wanted_by preferences.now student.0)) }
{
    put_ratings(text, catalog, name, preferences.ratings(student))?;
    put_adjustments(text, catalog, name, preferences.pairs(student))
}

// Puts the lines of a student's ratings behind the text.
fn put_ratings(
    text: &mut Vec<u8>,
    catalog: &Catalog,
    student: Name,
    ratings: &[(SectionNo, u8)],
) -> Result<(), NoMemory>
    requires { All (λ rated. rated.0.0 < length catalog.now.sections) ratings.now }
    ensures { OnOk result
        (text.new.items
        ≡ text.old.items
        ++ ratings_text catalog.now.sections (name_bytes student)
        (map rating_entry ratings.now)) }
{
    'ratings: for (section, rating) in ratings {
        put_rating(text, student, catalog.name(*section), *rating)?;
    }
    Ok(())
}

// Puts the lines of a student's adjustments behind the text.
fn put_adjustments(
    text: &mut Vec<u8>,
    catalog: &Catalog,
    student: Name,
    pairs: &[(SectionNo, SectionNo, i16)],
) -> Result<(), NoMemory>
    requires { All
        (λ adjusted. (adjusted.0.0 < length catalog.now.sections)
        × (adjusted.1.0 < length catalog.now.sections))
        pairs.now }
    ensures { OnOk result
        (text.new.items
        ≡ text.old.items
        ++ adjustments_text catalog.now.sections (name_bytes student)
        (map pair_entry pairs.now)) }
{
    'pairs: for (first, second, adjustment) in pairs {
        let first = catalog.name(*first);
        let second = catalog.name(*second);
        put_adjustment(text, student, first, second, *adjustment)?;
    }
    Ok(())
}
