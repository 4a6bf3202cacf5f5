// Which bundles a student may take, and which of two the student prefers.
ghost use Rattle.std.specs.Prelude.{◌≡◌, ◌↔◌, ◌<◌, ◌≤◌, ◌*◌, ◌*ℤ◌, pos, neg_ℤ, ◌≤ℤ◌, IsTrue, length, All};
ghost use Rattle.market_units.specs.Totals.{total};
ghost use Rattle.bundle_rules.specs.Apart.{ClashesWithNone, AreApart, IsWithinCaps, MayTake};
ghost use Rattle.bundle_rules.specs.Bundles.{sections_of};
ghost use Rattle.bundle_rules.specs.Menus.{by_place, wishes_of};
ghost use Rattle.bundle_rules.specs.{Preferences.IsPreferred, Sets.DiffersFirstIn};
ghost use Rattle.bundle_rules.specs.Wishes.{AllRated, IsFeasible, utility, adjustments};

use crate::picks::Picks;
use crate::{Bundle, Menu, Places, Rows, is_ahead};
use market_units::{MAX_ADJUSTMENT, MAX_SECTION_CREDITS};

/// The sum of the bundle's ratings and of the adjustments of its unordered pairs. All its sections
/// are on the menu.
pub fn utility(menu: &Menu, bundle: &Bundle) -> i32
    requires { AllRated (wishes_of menu.now) (sections_of bundle.now) }
    ensures { result ≡ utility (wishes_of menu.now) (sections_of bundle.now) }
{
    menu.rows().utility(bundle)
}

/// Whether the student may take the bundle: each section is rated, no two clash, and both caps
/// hold.
pub fn feasible(menu: &Menu, bundle: &Bundle) -> bool
    ensures { IsTrue result ↔ IsFeasible (wishes_of menu.now) (sections_of bundle.now) }
{
    menu.rows().feasible(bundle)
}

/// Whether the first of two feasible bundles is preferred to the second: it has the greater
/// utility, or the same and the lowest section on which they differ.
pub fn prefers(menu: &Menu, a: &Bundle, b: &Bundle) -> bool
    requires first { IsFeasible (wishes_of menu.now) (sections_of a.now) }
    requires second { IsFeasible (wishes_of menu.now) (sections_of b.now) }
    ensures { IsTrue result
        ↔ IsPreferred (wishes_of menu.now) (sections_of a.now) (sections_of b.now) }
{
    menu.rows().prefers(a, b)
}

impl Rows {
    /// The sum of the bundle's ratings and of the adjustments of its unordered pairs. All its
    /// sections are in these rows.
    pub fn utility(&self, bundle: &Bundle) -> i32
        requires { AllRated (wishes_of self.now) (sections_of bundle.now) }
        ensures { result ≡ utility (wishes_of self.now) (sections_of bundle.now) }
    {
        let places = Places::of(self, bundle);
        let places = places.as_slice();
        utility_of(&Picks { menu: self, places })
    }

    /// Whether the bundle may be taken: each section is rated, no two clash, and both caps hold.
    pub fn feasible(&self, bundle: &Bundle) -> bool
        ensures { IsTrue result ↔ IsFeasible (wishes_of self.now) (sections_of bundle.now) }
    {
        let places = Places::of(self, bundle);
        let places = places.as_slice();
        if !are_below(places, self.len()) {
            return false;
        }
        may_take(&Picks { menu: self, places })
    }

    /// Whether the first of two feasible bundles is preferred to the second: it has the greater
    /// utility, or the same and the lowest section on which they differ.
    pub fn prefers(&self, a: &Bundle, b: &Bundle) -> bool
        requires first { IsFeasible (wishes_of self.now) (sections_of a.now) }
        requires second { IsFeasible (wishes_of self.now) (sections_of b.now) }
        ensures { IsTrue result
            ↔ IsPreferred (wishes_of self.now) (sections_of a.now) (sections_of b.now) }
    {
        let first = self.utility(a);
        let second = self.utility(b);
        if first == second {
            comes_first(self, a, b)
        } else {
            first > second
        }
    }
}

// Whether the lowest section on which they differ is in the first: the places of sections ascend as
// they do.
fn comes_first(menu: &Rows, a: &Bundle, b: &Bundle) -> bool
    requires first { AllRated (wishes_of menu.now) (sections_of a.now) }
    requires second { AllRated (wishes_of menu.now) (sections_of b.now) }
    ensures { IsTrue result ↔ DiffersFirstIn (sections_of a.now) (sections_of b.now) }
{
    let first = Places::of(menu, a);
    let second = Places::of(menu, b);
    is_ahead(menu.len(), first.as_slice(), second.as_slice())
}

// Whether each of the places is among so many.
fn are_below(places: &[u8], count: u8) -> bool
    ensures { IsTrue result ↔ All (λ place. place < count) places.now }
{
    places.iter().all(|place| *place < count)
}

// Whether no two of the places clash, and both caps hold.
fn may_take(picks: &Picks) -> bool
    ensures { IsTrue result ↔ MayTake picks.now.menu.now picks.now.places.now }
{
    within_caps(picks) && apart(picks)
}

fn within_caps(picks: &Picks) -> bool
    ensures { IsTrue result ↔ IsWithinCaps (by_place picks.now.menu.now) picks.now.places.now }
{
    let menu = picks.menu;
    picks.places.len() <= usize::from(menu.courses())
        && credits_of(picks) <= u32::from(menu.credits())
}

fn utility_of(picks: &Picks) -> i32
    ensures value { result ≡ utility (by_place picks.now.menu.now) picks.now.places.now }
    ensures low { neg_ℤ (pos (1700 * length picks.now.places.now)) ≤ℤ result }
    ensures high { result ≤ℤ pos (1700 * length picks.now.places.now) }
{
    let menu = picks.menu;
    match picks.places {
        [] => 0,
        [place, more @ ..] => {
            let later = Picks { menu, places: more };
            i32::from(menu.rated(*place).rating)
                + adjustments_of(*place, &later)
                + utility_of(&later)
        }
    }
}

fn adjustments_of(place: u8, others: &Picks) -> i32
    requires { place < length others.now.menu.now.places }
    ensures value { result ≡ adjustments (by_place others.now.menu.now) place others.now.places.now }
    ensures low { neg_ℤ (MAX_ADJUSTMENT *ℤ pos (length others.now.places.now)) ≤ℤ result }
    ensures high { result ≤ℤ (MAX_ADJUSTMENT *ℤ pos (length others.now.places.now)) }
{
    let menu = others.menu;
    match others.places {
        [] => 0,
        [other, more @ ..] => {
            let later = Picks { menu, places: more };
            i32::from(menu.adjustment(place, *other)) + adjustments_of(place, &later)
        }
    }
}

fn apart(picks: &Picks) -> bool
    ensures { IsTrue result ↔ AreApart (by_place picks.now.menu.now) picks.now.places.now }
{
    let menu = picks.menu;
    match picks.places {
        [] => true,
        [place, more @ ..] => {
            let later = Picks { menu, places: more };
            clashes_with_none(*place, &later) && apart(&later)
        }
    }
}

fn clashes_with_none(place: u8, others: &Picks) -> bool
    requires { place < length others.now.menu.now.places }
    ensures { IsTrue result
        ↔ ClashesWithNone (by_place others.now.menu.now) place others.now.places.now }
{
    let menu = others.menu;
    match others.places {
        [] => true,
        [other, more @ ..] => {
            let later = Picks { menu, places: more };
            !menu.clash(place, *other) && clashes_with_none(place, &later)
        }
    }
}

fn credits_of(picks: &Picks) -> u32
    ensures value { result ≡ total (by_place picks.now.menu.now).credits picks.now.places.now }
    ensures high { result ≤ MAX_SECTION_CREDITS * length picks.now.places.now }
{
    let menu = picks.menu;
    match picks.places {
        [] => 0,
        [place, more @ ..] => {
            let later = Picks { menu, places: more };
            u32::from(menu.rated(*place).credits) + credits_of(&later)
        }
    }
}
