// What is asked in one search.
ghost use Rattle.std.specs.Prelude.{◌<◌, [], ◌∷◌, IfSome, length};
ghost use Rattle.std.proofs.Props.{props};
ghost use Rattle.bundle_rules.specs.{Menus.section_at, Sets.IsAscending-prop};
ghost use Rattle.bundle_bounds.specs.{Laws.IsTakable, Views.data_of};

use bundle_bounds::Offer;

/// The best bundle of an offer, of those with the section of a place where one is given, which may
/// be taken alone.
#[derive(Clone, Copy)]
pub(crate) struct Asked<'s, 'o> {
    pub(crate) offer: &'s Offer<'o>,
    pub(crate) given: Option<u8>,
    ghost on_menu: { IfSome given (λ place. place < length offer.now.menu.now.places) } by { Prim.hlevel props },
    ghost alone: { IfSome given (λ place. IsTakable (data_of offer.now) (section_at offer.now.menu.now.places place ∷ [])) } by { Prim.hlevel (props, IsAscending-prop) },
}
