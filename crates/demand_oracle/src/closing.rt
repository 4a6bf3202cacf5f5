// Whether a node needs no more search.
ghost use Rattle.std.specs.Prelude.{◌≤◌, ℕ, IsTrue, length};
ghost use Rattle.bundle_bounds.specs.Laws.{IsNode};
ghost use Rattle.demand_oracle.specs.{Champions.IsChampion, Columns.IsColumn};
ghost use Rattle.demand_oracle.specs.OpenWords.{IsOpenWord};
ghost use Rattle.demand_oracle.specs.Questions.{IsQuestion, aim_of, offer_asked};
ghost use Rattle.demand_oracle.specs.Search.{LeadsNode, WinsEachTie};
ghost use Rattle.demand_oracle.specs.SummedNodes.{chosen_of, IsSummedOf};

use crate::places::hopes_of;
use crate::question::Question;
use crate::reach::{Column, is_below, lacking};
use crate::summed_node::SummedNode;
use crate::tables::MOST_PLACES;

/// Whether nothing that completes the node where the places below this one are decided can be
/// better than the champion: less can be reached than its utility, or less than one more, and it
/// stands first before all that the node's places and the open ones can make. So nothing that is
/// wanted can, whatever bundles are wanted. The column is that of the node's sections.
#[inline(always)]
pub(crate) fn prunes(
    question: &Question,
    column: &Column,
    summed: &SummedNode,
    place: u8,
    left: u64,
    champion: &SummedNode,
) -> bool
    requires place { place ≤ length (offer_asked question.now).menu.places }
    requires summed { IsSummedOf (offer_asked question.now) summed.now }
    requires champion { IsSummedOf (offer_asked question.now) champion.now }
    ensures { (from : ℕ) → IsQuestion question.now
        → IsColumn (offer_asked question.now).menu (offer_asked question.now).budget
        question.now.reach.now summed.now column.now
        → IsNode (offer_asked question.now) from (chosen_of summed.now) → from ≤ place
        → IsOpenWord (offer_asked question.now) from (chosen_of summed.now) left
        → IsChampion (offer_asked question.now) champion.now → IsTrue result
        → LeadsNode (offer_asked question.now) (aim_of question.now) place
        (chosen_of summed.now) (chosen_of champion.now) }
{
    let menu = question.offer.menu;
    let reach = question.reach;
    prove!(place <= menu.len());
    let added = reach.added(column, place);
    let short = lacking(champion.utility(), summed.utility(), 0);
    // Adjustments can only add, so they are looked up where the rest is too little.
    if !is_below(added, short + 1) {
        return false;
    }
    let hoped = hopes_of(&reach.hopes[usize::from(place)], summed.places());
    let lacking = lacking(champion.utility(), summed.utility(), hoped);
    if is_below(added, lacking) {
        return true;
    }
    is_below(added, lacking + 1) && wins_each_tie(question, summed, left, champion)
}

// Whether the champion stands first before all that the node's places and the open ones can make.
fn wins_each_tie(question: &Question, summed: &SummedNode, left: u64, champion: &SummedNode) -> bool
    requires summed { IsSummedOf (offer_asked question.now) summed.now }
    requires champion { IsSummedOf (offer_asked question.now) champion.now }
    ensures { (from place : ℕ) → IsQuestion question.now
        → IsNode (offer_asked question.now) from (chosen_of summed.now) → from ≤ place
        → IsOpenWord (offer_asked question.now) from (chosen_of summed.now) left
        → IsChampion (offer_asked question.now) champion.now → IsTrue result
        → WinsEachTie (aim_of question.now).name (offer_asked question.now) place
        (chosen_of summed.now) (chosen_of champion.now) }
{
    prove!(question.offer.menu.len() <= MOST_PLACES);
    let word = left | summed.word;
    question
        .names
        .stand_first(champion.places(), champion.word, word)
}
