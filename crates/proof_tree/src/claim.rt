// What a tree proves.
ghost use Rattle.std.specs.Prelude.{◌<◌, ◌≤◌, IfSome, length};
ghost use Rattle.std.proofs.Props.{props};
ghost use Rattle.bundle_rules.specs.Bundles.{sections_of};
ghost use Rattle.bundle_bounds.specs.{Laws.IsTakable, Props.IsTakable-prop, Views.data_of};

use bundle_bounds::Offer;
use bundle_rules::Bundle;

/// That a champion, which may be taken of an offer, is the best bundle of it, or the best of those
/// with the section of a required place: what a tree proves.
#[derive(Clone, Copy)]
pub(crate) struct Claim<'c, 'o> {
    pub(crate) offer: &'c Offer<'o>,
    pub(crate) required: Option<u8>,
    pub(crate) champion: &'c Bundle,
    ghost on_menu: { IfSome required (λ place. place < length offer.now.menu.now.places) } by { Prim.hlevel props },
    ghost takable: { IsTakable (data_of offer.now) (sections_of champion.now) } by { IsTakable-prop (data_of offer.now) (sections_of champion.now) },
}
