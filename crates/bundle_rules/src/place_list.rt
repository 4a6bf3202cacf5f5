// The places of a bundle's sections on a menu.
ghost use Rattle.std.specs.Prelude.{◌≡◌, ◌≤◌, length, map};
ghost use Rattle.market_units.specs.declared.limits.TheConstants.{MAX_COURSES};
ghost use Rattle.bundle_rules.specs.{Bundles.sections_of, Menus.place_in};

use crate::{Bundle, Rows};
use market_units::MAX_COURSES;

const ROOM: usize = MAX_COURSES as usize;

/// The places of a bundle's sections, in their order; a section that is not on the menu has the
/// number of places.
#[derive(Clone, Copy)]
pub struct Places {
    places: [u8; ROOM],
    len: usize,
    ghost short: { len ≤ MAX_COURSES },
}

impl Places {
    ghost use Rattle.bundle_rules.specs.PlaceLists.{listed};

    /// The places of the bundle's sections on the menu.
    pub fn of(menu: &Rows, bundle: &Bundle) -> Places
        ensures { listed result ≡ map (place_in menu.now.places) (sections_of bundle.now) }
    {
        let mut places = [0; ROOM];
        for (i, section) in bundle.sections().iter().enumerate() {
            places[i] = menu.place(*section);
        }
        Places {
            places,
            len: bundle.sections().len(),
        }
    }

    /// The places, as many as the bundle has sections.
    pub fn as_slice(&self) -> &[u8]
        ensures value { result.now ≡ listed self.now }
        ensures few { length result.now ≤ MAX_COURSES }
    {
        &self.places[..self.len]
    }
}
