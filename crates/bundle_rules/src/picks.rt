// Places of a menu.
ghost use Rattle.std.specs.Prelude.{◌<◌, ◌≤◌, length, All};
ghost use Rattle.market_units.specs.declared.limits.TheConstants.{MAX_COURSES};

use crate::Rows;

/// Places of a menu, at most 8 of them.
#[derive(Clone, Copy)]
pub(crate) struct Picks<'p> {
    pub(crate) menu: &'p Rows,
    pub(crate) places: &'p [u8],
    ghost on_menu: { All (λ place. place < length menu.now.places) places.now },
    ghost few: { length places.now ≤ MAX_COURSES },
}
