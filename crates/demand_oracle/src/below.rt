// The search below a node: place by place, with a call of itself for each section that is taken.
ghost use Rattle.std.specs.Prelude.{◌≡◌, ◌<◌, ◌≤◌, ◌+◌, ◌-◌, ◌↔◌, ℕ, Some, IsTrue, length, slice_index, drop};
ghost use Rattle.market_units.specs.declared.limits.TheConstants.{MAX_RATINGS};
ghost use Rattle.bundle_rules.specs.Menus.{credits_at};
ghost use Rattle.bundle_rules.specs.{Places.menu_sections};
ghost use Rattle.bundle_bounds.specs.{Laws.IsNode, Offers.price_at};
ghost use Rattle.demand_oracle.specs.Champions.{AreLeaders, kept_of};
ghost use Rattle.demand_oracle.specs.Columns.{IsColumn, IsColumnFor};
ghost use Rattle.demand_oracle.specs.OpenWords.{IsOpenWord};
ghost use Rattle.demand_oracle.specs.Questions.{IsQuestion, offer_asked, aim_of};
ghost use Rattle.demand_oracle.specs.Search.{Kept, IsSearched, MayBePruned};
ghost use Rattle.demand_oracle.specs.SummedNodes.{chosen_of, with_place_of, IsSummedOf};

use crate::closing::prunes;
use crate::keeping::put_better;
use crate::leaders::Leaders;
use crate::question::Question;
use crate::reach::{Column, is_below, lacking};
use crate::step::Step;
use crate::summed_node::SummedNode;

/// Searches what completes a node, and keeps the best of that and of what was kept. The word's bits
/// are undecided places that may be taken alone and clash with no chosen one, among them all that
/// may be taken with the chosen ones. How many nodes were opened is told: the look-ups of
/// `falls_short` are not counted.
pub(crate) fn below(
    question: &Question,
    summed: &SummedNode,
    word: u64,
    leaders: &mut Leaders,
) -> u64
    requires question { IsQuestion question.now }
    requires summed { IsSummedOf (offer_asked question.now) summed.now }
    requires node { IsNode (offer_asked question.now) summed.now.node.place (chosen_of summed.now) }
    requires word { IsOpenWord (offer_asked question.now) summed.now.node.place
        (chosen_of summed.now) word }
    requires leaders { AreLeaders (offer_asked question.now) (aim_of question.now).name leaders.old }
    ensures leaders { AreLeaders (offer_asked question.now) (aim_of question.now).name leaders.new }
    ensures searched { IsSearched (offer_asked question.now) (aim_of question.now)
        summed.now.node.place (chosen_of summed.now)
        (drop summed.now.node.place (menu_sections (offer_asked question.now).menu))
        (kept_of leaders.old) (kept_of leaders.new) }
{
    let menu = question.offer.menu;
    if summed.courses_left(menu) == 0 {
        put_better(question, summed, leaders);
        return 0;
    }
    if is_lost(question, summed, word) {
        return 0;
    }
    let column = question.reach.column(menu, question.offer.budget, summed);
    let mut opened = 0u64;
    let budget_left = summed.budget_left(question.offer.budget);
    let mut left = word & question.goods.affordable(budget_left);
    'places: while left != 0 {
        let place = left.trailing_zeros() as u8;
        opened = opened.saturating_add(1);
        if is_pruned(question, &column, summed, place, left, leaders) {
            return opened;
        }
        left &= !(1u64 << place);
        if !fits(question, summed, place) {
            continue;
        }
        let apart = left & !question.goods.clashes[usize::from(place)];
        if falls_short(question, summed, place, apart, leaders) {
            continue;
        }
        let step = Step {
            offer: question.offer,
            summed,
            place,
        };
        let with_it = step.with_place();
        opened = opened.saturating_add(below(question, &with_it, apart, leaders));
        if is_given(question.given, place) {
            return opened;
        }
    }
    put_better(question, summed, leaders);
    opened
}

// Whether as many are kept as may be, and nothing that completes the node where the places below
// this one are decided can be better than the last of them.
#[inline(always)]
fn is_pruned(
    question: &Question,
    column: &Column,
    summed: &SummedNode,
    place: u8,
    left: u64,
    leaders: &Leaders,
) -> bool
    requires place { place ≤ length (offer_asked question.now).menu.places }
    requires summed { IsSummedOf (offer_asked question.now) summed.now }
    requires leaders { AreLeaders (offer_asked question.now) (aim_of question.now).name leaders.now }
    ensures { (from : ℕ) → IsQuestion question.now
        → IsColumn (offer_asked question.now).menu (offer_asked question.now).budget
        question.now.reach.now summed.now column.now
        → IsNode (offer_asked question.now) from (chosen_of summed.now) → from ≤ place
        → IsOpenWord (offer_asked question.now) from (chosen_of summed.now) left → IsTrue result
        → MayBePruned (offer_asked question.now) (aim_of question.now) place
        (chosen_of summed.now) (kept_of leaders.now) }
{
    if !leaders.is_full() {
        return false;
    }
    prunes(question, column, summed, place, left, &leaders.champion)
}

// Whether the section of a place is within what the node leaves of the budget and of the credit
// cap.
#[inline(always)]
fn fits(question: &Question, summed: &SummedNode, place: u8) -> bool
    requires { place < MAX_RATINGS }
    ensures { IsQuestion question.now → place < length (offer_asked question.now).menu.places
        → IsTrue result
        ↔ ((price_at (offer_asked question.now) place
        ≤ (offer_asked question.now).budget - summed.now.paid)
        × (credits_at (offer_asked question.now).menu.places place
        ≤ (offer_asked question.now).menu.credits - summed.now.credits)) }
{
    let at = usize::from(place);
    if question.goods.prices[at] > summed.budget_left(question.offer.budget) {
        return false;
    }
    u32::from(question.goods.credits[at]) <= summed.credits_left(question.offer.menu)
}

// Whether it is plain that nothing with the section of an open place is kept, so little can be
// reached from the node with it. Mostly it is, and the node need not be made. The word has the
// places behind this one that stay open with it. It is not told of the given place, behind which
// the search ends.
#[inline(always)]
fn falls_short(
    question: &Question,
    summed: &SummedNode,
    place: u8,
    apart: u64,
    leaders: &Leaders,
) -> bool
    requires question { IsQuestion question.now }
    requires summed { IsSummedOf (offer_asked question.now) summed.now }
    requires undecided { summed.now.node.place ≤ place }
    requires on_menu { place < length (offer_asked question.now).menu.places }
    requires node { IsNode (offer_asked question.now) (place + 1)
        (with_place_of (offer_asked question.now).menu summed.now place) }
    requires word { IsOpenWord (offer_asked question.now) (place + 1)
        (with_place_of (offer_asked question.now).menu summed.now place) apart }
    requires leaders { AreLeaders (offer_asked question.now) (aim_of question.now).name leaders.now }
    ensures { IsTrue result
        → IsSearched (offer_asked question.now) (aim_of question.now) (place + 1)
        (with_place_of (offer_asked question.now).menu summed.now place)
        (drop (place + 1) (menu_sections (offer_asked question.now).menu))
        (kept_of leaders.now) (kept_of leaders.now) }
{
    if apart == 0 {
        return false;
    }
    if !leaders.is_full() {
        return false;
    }
    if is_given(question.given, place) {
        return false;
    }
    let champion = &leaders.champion;
    let reach = question.reach;
    let next = apart.trailing_zeros() as u8;
    let column = column_with(question, summed, place);
    let added = reach.added(&column, next);
    let step = Step {
        offer: question.offer,
        summed,
        place,
    };
    let utility = step.utility_with();
    // Adjustments can only add, so they are looked up where the rest is too little.
    if !is_below(added, lacking(champion.utility(), utility, 0)) {
        return false;
    }
    let hoped = reach.hoped_with(&step, next);
    is_below(added, lacking(champion.utility(), utility, hoped))
}

// What is looked up where the section of a place is chosen too.
#[inline(always)]
fn column_with(question: &Question, summed: &SummedNode, place: u8) -> Column
    requires { place < MAX_RATINGS }
    ensures { IsColumnFor question.now.reach.now
        ((offer_asked question.now).menu.courses - length (chosen_of summed.now) - 1)
        ((offer_asked question.now).budget - summed.now.paid
        - slice_index question.now.goods.now.prices place)
        ((offer_asked question.now).menu.credits - summed.now.credits
        - slice_index question.now.goods.now.credits place) result }
{
    let at = usize::from(place);
    let budget_left = summed.budget_left(question.offer.budget);
    let credits_left = summed.credits_left(question.offer.menu);
    question.reach.column_for(
        summed.courses_left(question.offer.menu).saturating_sub(1),
        budget_left.saturating_sub(question.goods.prices[at]),
        credits_left.saturating_sub(u32::from(question.goods.credits[at])),
    )
}

// Whether the given place is undecided, and its section may no more be taken with the chosen ones.
// The word has the open places.
#[inline(always)]
fn is_lost(question: &Question, summed: &SummedNode, word: u64) -> bool
    requires question { IsQuestion question.now }
    requires summed { IsSummedOf (offer_asked question.now) summed.now }
    requires node { IsNode (offer_asked question.now) summed.now.node.place (chosen_of summed.now) }
    requires word { IsOpenWord (offer_asked question.now) summed.now.node.place
        (chosen_of summed.now) word }
    ensures undecided { IsTrue result
        → summed.now.node.place < length (offer_asked question.now).menu.places }
    ensures lost { (kept : Kept) → IsTrue result
        → MayBePruned (offer_asked question.now) (aim_of question.now) summed.now.node.place
        (chosen_of summed.now) kept }
{
    match question.given {
        Some(place) => {
            if place < summed.node.place {
                return false;
            }
            if (word >> place) & 1 == 0 {
                return true;
            }
            !fits(question, summed, place)
        }
        None => false,
    }
}

// Whether the place is the given one.
#[inline(always)]
fn is_given(given: Option<u8>, place: u8) -> bool
    ensures { IsTrue result ↔ (given ≡ Some place) }
{
    match given {
        Some(other) => other == place,
        None => false,
    }
}
