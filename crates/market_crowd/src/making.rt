// A crowd from what was read and said.
ghost use Rattle.std.specs.Prelude.{◌≡◌, ◌≤◌, All, IfOk, length};
ghost use Rattle.demand_api.specs.Views.{data_of};
ghost use Rattle.market_crowd.specs.Crowds.{IsCrowdOf};
ghost use Rattle.preference_desk.specs.PreferencesView.{preferences_of};
ghost use Rattle.preference_desk.specs.StudentPreferences.{SectionsBelow};

use budget_draw::draw;
use course_catalog::Catalog;
use demand_api::Crowd;
use market_menus::menus;
use market_units::{MAX_SPREAD, NoMemory};
use preference_desk::Preferences;
use std::alloc::Global;
use student_roll::Roll;

/// The crowd of the students of a roll, in file order: each with the menu that its preferences, the
/// catalogue and the roll give, and the budget that the seed draws for it, with 0 to 49 tokens
/// between neighbouring ranks. `NoMemory` is the only error.
pub fn make_crowd(
    alloc: Global,
    catalog: &Catalog,
    roll: &Roll,
    preferences: &Preferences,
    seed: u64,
    spread: u8,
) -> Result<Crowd, NoMemory>
    requires students { length (preferences_of preferences.now) ≡ length roll.now.students }
    requires sections { All (SectionsBelow (length catalog.now.sections))
        (preferences_of preferences.now) }
    requires spread { spread ≤ MAX_SPREAD }
    ensures { IfOk result
        (λ crowd. IsCrowdOf catalog.now.sections roll.now.students (preferences_of preferences.now)
        seed spread (data_of crowd)) }
{
    let _few_students = roll.len();
    let menus = menus(alloc, catalog, roll, preferences)?;
    let budgets = draw(alloc, roll, seed, spread)?;
    Ok(Crowd {
        menus,
        budgets,
        sections: catalog.len(),
    })
}
