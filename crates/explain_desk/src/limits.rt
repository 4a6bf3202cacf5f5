// The limits that sections can pass together.
ghost use Rattle.std.specs.Prelude.{◌<◌, ◌∷◌, IfSome, IfNone, length};
ghost use Rattle.bundle_rules.specs.{Bundles.sections_of, Demand.price_in};
ghost use Rattle.bundle_rules.specs.{Menus.place_in, Menus.wishes_of};
ghost use Rattle.bundle_rules.specs.Wishes.{AllRated};
ghost use Rattle.explain_desk.specs.Limits.{Passes, PassesFirst};
ghost use Rattle.explain_desk.specs.declared.limits.Limit.{Limit};

use crate::offered::Offered;
use bundle_bounds::price_of_place;
use bundle_rules::{Bundle, price_of};
use market_units::SectionNo;

/// A limit on what a student may take.
#[derive(Clone, Copy, Debug, PartialEq, Eq)]
pub enum Limit {
    /// The budget, in tokens.
    Price,
    /// The most credits that the student may take.
    Credits,
    /// The most sections that the student may take.
    Courses,
}

/// The first limit that the section passes together with those of the bundle: the budget, the cap
/// on credits, the cap on sections, in this order. `None` where they keep all three.
pub(crate) fn first_passed(offered: &Offered, section: SectionNo, bundle: &Bundle) -> Option<Limit>
    requires section { place_in offered.now.menu.now.places section.0
        < length offered.now.menu.now.places }
    requires bundle { AllRated (wishes_of offered.now.menu.now) (sections_of bundle.now) }
    ensures some { IfSome result
        (PassesFirst (wishes_of offered.now.menu.now) (price_in offered.now.prices.now)
        offered.now.budget.0 (section.0 ∷ sections_of bundle.now)) }
    ensures none { IfNone result
        ((limit : Limit)
        → ¬ Passes (wishes_of offered.now.menu.now) (price_in offered.now.prices.now)
        offered.now.budget.0 (section.0 ∷ sections_of bundle.now) limit) }
{
    let menu = offered.menu;
    let place = menu.place(section);
    let sections = bundle.sections();
    let price = price_of_place(menu.rows(), offered.prices, place)
        + price_of(offered.prices, sections);
    if price > offered.budget.0 {
        return Some(Limit::Price);
    }
    let mut credits = u32::from(menu.rated(place).credits);
    'others: for other in sections {
        credits += u32::from(menu.rated(menu.place(*other)).credits);
    }
    if credits > u32::from(menu.credits()) {
        return Some(Limit::Credits);
    }
    if sections.len() >= usize::from(menu.courses()) {
        return Some(Limit::Courses);
    }
    None
}
