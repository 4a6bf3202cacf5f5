// Why a student does not have a section.
ghost use Rattle.std.specs.Prelude.{◌≡◌};
ghost use Rattle.bundle_rules.specs.{Bundles.sections_of, Demand.price_in, Menus.wishes_of};
ghost use Rattle.bundle_rules.specs.Wishes.{IsFeasible};
ghost use Rattle.explain_desk.specs.Reasons.{IsReason, tells_best};

use crate::Limit;
use crate::limits::first_passed;
use crate::offered::Offered;
use bundle_rules::Bundle;
use market_units::SectionNo;

/// Why a student does not have a section: the first that applies, in this order.
#[derive(Clone, Copy, Debug, PartialEq, Eq)]
pub enum Reason {
    /// The student has it.
    Held,
    /// The student does not rate it.
    Unrated,
    /// By itself it passes a limit, this one first.
    Alone(Limit),
    /// It clashes with a section of the student's bundle, of which this is the lowest.
    Clash(SectionNo),
    /// Together with the student's bundle it passes a limit, this one first.
    Beside(Limit),
    /// It could be taken beside the bundle, which the student prefers as it is.
    Less,
}

/// Why the student does not have the section of what is offered beside this bundle: the first
/// reason that applies.
pub(crate) fn reason_of(offered: &Offered, bundle: &Bundle, section: SectionNo) -> Reason
    requires { IsFeasible (wishes_of offered.now.menu.now) (sections_of bundle.now) }
    ensures { IsReason (wishes_of offered.now.menu.now) (price_in offered.now.prices.now)
        offered.now.budget.0 (sections_of bundle.now) section.0 result }
{
    let menu = offered.menu;
    if bundle.has(section) {
        return Reason::Held;
    }
    let place = menu.place(section);
    if place >= menu.len() {
        return Reason::Unrated;
    }
    if let Some(limit) = first_passed(offered, section, &Bundle::empty()) {
        return Reason::Alone(limit);
    }
    let sections = bundle.sections();
    'others: for other in sections {
        if menu.clash(menu.place(*other), place) {
            return Reason::Clash(*other);
        }
    }
    match first_passed(offered, section, bundle) {
        Some(limit) => Reason::Beside(limit),
        None => Reason::Less,
    }
}

/// Whether the best bundle with the section is told beside this reason: not where the student has
/// the section, does not rate it, or could not take it alone. Else some choice has the section.
pub(crate) fn tells_best(reason: Reason) -> bool
    ensures { result ≡ tells_best reason }
{
    match reason {
        Reason::Held | Reason::Unrated | Reason::Alone(_) => false,
        Reason::Clash(_) | Reason::Beside(_) | Reason::Less => true,
    }
}
