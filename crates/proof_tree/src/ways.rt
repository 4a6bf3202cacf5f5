// The way to the champion: the nodes that it completes.
ghost use Rattle.std.specs.Prelude.{◌≡◌, ◌<◌, ℕ, IsTrue};
ghost use Rattle.market_units.specs.Members.{has};
ghost use Rattle.bundle_rules.specs.{Ordinals.ordinals, Sets.IsAscending};
ghost use Rattle.proof_tree.specs.Visits.{IsCompleted};

use crate::visit::Visit;
use market_units::SectionNo;

/// Whether a place is left at the node, and the champion completes it.
#[inline(always)]
pub(crate) fn is_on_way(visit: &Visit) -> bool
    ensures { IsTrue result → IsCompleted visit.now }
{
    let claim = &visit.claim;
    let menu = claim.offer.menu;
    if visit.node.place >= menu.len() {
        return false;
    }
    let next = menu.rated(visit.node.place).section;
    is_front(
        visit.node.chosen.sections(),
        claim.champion.sections(),
        next,
    )
}

// Whether the sections below the next one are the same in both, and the chosen ones have no others.
fn is_front(chosen: &[SectionNo], champion: &[SectionNo], next: SectionNo) -> bool
    requires { IsAscending (ordinals champion.now) }
    ensures { IsTrue result
        → (s : ℕ) → s < next.0 → has (ordinals champion.now) s ≡ has (ordinals chosen.now) s }
{
    match champion {
        [] => chosen.is_empty(),
        [first, later @ ..] => match chosen {
            [] => next.0 <= first.0,
            [other, others @ ..] => first.0 == other.0 && is_front(others, later, next),
        },
    }
}
