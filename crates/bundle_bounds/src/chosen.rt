// Chosen places, with what they leave.
ghost use Rattle.std.specs.Prelude.{◌≤◌, length};
ghost use Rattle.market_units.specs.declared.limits.TheConstants.{MAX_COURSES};
ghost use Rattle.bundle_bounds.specs.{Offers.AreOnMenu, Rests.AreRests, Views.data_of};

use crate::Offer;
use crate::opens::Rests;

/// Places of an offer's menu that are chosen, at most 8, and what they leave of the budget, of the
/// credit cap and of the course cap: 0 where they take more.
#[derive(Clone, Copy)]
pub(crate) struct Chosen<'c, 'o> {
    pub(crate) offer: &'c Offer<'o>,
    pub(crate) places: &'c [u8],
    pub(crate) rests: Rests,
    ghost on_menu: { AreOnMenu offer.now.menu.now places.now },
    ghost few: { length places.now ≤ MAX_COURSES },
    ghost rests_are: { AreRests (data_of offer.now) places.now rests },
}
