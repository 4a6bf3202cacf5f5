// A market as its parts are passed.
ghost use Rattle.std.specs.Prelude.{◌≤◌};
ghost use Rattle.market_units.specs.declared.limits.TheConstants.{MAX_RAISE, MAX_SPREAD};

use course_catalog::Catalog;
use market_settings::Settings;
use student_roll::Roll;

/// A market: its catalogue, its roll and its settings. Budgets are drawn and raised within their
/// limits: neighbouring ranks are 0 to 49 tokens apart, and a raise is of 0 to 50 percent.
#[derive(Clone, Copy)]
pub struct Market<'a> {
    /// The sections.
    pub catalog: &'a Catalog,
    /// The students.
    pub roll: &'a Roll,
    /// By what numbers the market is held.
    pub settings: &'a Settings,
    pub ghost spread: { settings.now.spread ≤ MAX_SPREAD },
    pub ghost raise: { settings.now.raise ≤ MAX_RAISE },
}
