// A place of a menu.
ghost use Rattle.std.specs.Prelude.{◌<◌, length};

use bundle_bounds::Offer;

/// A place of an offer's menu.
#[derive(Clone, Copy)]
pub(crate) struct Spot<'s, 'o> {
    pub(crate) offer: &'s Offer<'o>,
    pub(crate) place: u8,
    ghost on_menu: { place < length offer.now.menu.now.places },
}
