// A node, and an undecided place whose section is tried.
ghost use Rattle.std.specs.Prelude.{◌≡◌, ◌↔◌, ◌<◌, ◌≤◌, ◌+◌, ◌*◌, ◌++◌, ◌∷◌, [], ◌≤ℤ◌, pos, neg_ℤ, IsTrue, length};
ghost use Rattle.bundle_rules.specs.{Menus.section_at, Menus.wishes_of, Wishes.utility};
ghost use Rattle.bundle_bounds.specs.{Laws.IsTakable, Laws.IsNode, Views.data_of};
ghost use Rattle.demand_oracle.specs.SummedNodes.{chosen_of, with_place_of, IsSummedOf};

use crate::spot::Spot;
use crate::summed_node::SummedNode;
use bundle_bounds::{Node, Offer, adjustments_with, is_apart, price_of_place};
use market_units::MAX_COURSES;

/// A node with its sums at the prices of an offer, and a place of the offer's menu that is undecided
/// there.
#[derive(Clone, Copy)]
pub(crate) struct Step<'s, 'o> {
    pub(crate) offer: &'s Offer<'o>,
    pub(crate) summed: &'s SummedNode,
    pub(crate) place: u8,
    ghost summed_is: { IsSummedOf (data_of offer.now) summed.now },
    ghost undecided: { summed.now.node.place ≤ place },
    ghost on_menu: { place < length offer.now.menu.now.places },
}

/// The node that has the section of a place alone, and has decided no later one.
pub(crate) fn node_of(spot: &Spot) -> SummedNode
    ensures summed { IsSummedOf (data_of spot.now.offer.now) result }
    ensures chosen { chosen_of result
        ≡ section_at spot.now.offer.now.menu.now.places spot.now.place ∷ [] }
{
    let root = SummedNode::root();
    let step = Step {
        offer: spot.offer,
        summed: &root,
        place: spot.place,
    };
    step.with_place()
}

impl Step<'_, '_> {
    /// The utility of the chosen sections with that of the place.
    #[inline(always)]
    pub(crate) fn utility_with(&self) -> i32
        ensures value { result
            ≡ utility (wishes_of self.now.offer.now.menu.now)
            (with_place_of self.now.offer.now.menu.now self.now.summed.now self.now.place) }
        ensures low { neg_ℤ (pos (1700 * (length (chosen_of self.now.summed.now) + 1))) ≤ℤ result }
        ensures high { result ≤ℤ pos (1700 * (length (chosen_of self.now.summed.now) + 1)) }
    {
        let menu = self.offer.menu;
        let place = self.place;
        prove!(place < menu.len());
        let rated = menu.rated(place);
        let adjustments = adjustments_with(menu, self.summed.places(), place);
        self.summed.utility + i32::from(rated.rating) + adjustments
    }

    /// Whether the section of the place may be taken with the chosen ones: it is allowed and
    /// clashes with none of them, and all together are within the budget, the credit cap and the
    /// course cap.
    pub(crate) fn may_take(&self) -> bool
        requires { IsNode (data_of self.now.offer.now) self.now.summed.now.node.place
            (chosen_of self.now.summed.now) }
        ensures takable { IsTrue result
            ↔ IsTakable (data_of self.now.offer.now)
            (with_place_of self.now.offer.now.menu.now self.now.summed.now self.now.place) }
        ensures room { IsTrue result → length (chosen_of self.now.summed.now) < MAX_COURSES }
    {
        let offer = self.offer;
        let menu = offer.menu;
        let place = self.place;
        prove!(place < menu.len());
        let rated = menu.rated(place);
        if !offer.allowed.has(rated.section) {
            return false;
        }
        if price_of_place(menu, offer.prices, place) > self.summed.budget_left(offer.budget) {
            return false;
        }
        if u32::from(rated.credits) > self.summed.credits_left(menu) {
            return false;
        }
        if self.summed.courses_left(menu) == 0 {
            return false;
        }
        is_apart(menu, self.summed.places(), place)
    }

    /// The node with the section of the place, which has decided no later one.
    #[must_use]
    #[inline(always)]
    pub(crate) fn with_place(&self) -> SummedNode
        requires { length (chosen_of self.now.summed.now) < MAX_COURSES }
        ensures summed { IsSummedOf (data_of self.now.offer.now) result }
        ensures place { result.node.place ≡ self.now.place + 1 }
        ensures chosen { chosen_of result
            ≡ with_place_of self.now.offer.now.menu.now self.now.summed.now self.now.place }
    {
        let menu = self.offer.menu;
        let place = self.place;
        prove!(place < menu.len());
        let rated = menu.rated(place);
        let mut places = self.summed.places;
        places[self.summed.node.chosen.sections().len()] = place;
        SummedNode {
            node: Node {
                place: place + 1,
                chosen: self.summed.node.chosen.with(rated.section),
            },
            places,
            word: self.summed.word | 1 << place,
            paid: self.summed.paid + price_of_place(menu, self.offer.prices, place),
            credits: self.summed.credits + u32::from(rated.credits),
            utility: self.utility_with(),
        }
    }
}
