// What is kept of the bundles that a search finds.
ghost use Rattle.std.specs.Prelude.{◌≡◌, ◌<◌, ◌≤◌, ◌+◌, ◌++◌, ◌∷◌, [], ◌↔◌, ℕ, List, All, true, false, IfSome, IsTrue, drop, length, map, take};
ghost use Rattle.bundle_rules.specs.{Bundles.sections_of, Menus.wishes_of};
ghost use Rattle.demand_oracle.specs.Bests.{IsAmong};
ghost use Rattle.demand_oracle.specs.Champions.{AreLeaders, kept_of, nodes_of};
ghost use Rattle.demand_oracle.specs.Inserting.{IsInserted};
ghost use Rattle.demand_oracle.specs.Names.{IsPreferredByName};
ghost use Rattle.demand_oracle.specs.Questions.{IsQuestion, offer_asked, aim_of};
ghost use Rattle.demand_oracle.specs.Search.{wanted_by, bundles_kept, IsPut, IsListed};
ghost use Rattle.demand_oracle.specs.SummedNodes.{chosen_of, IsSummedOf};
ghost use Rattle.demand_oracle.specs.declared.summed_node.SummedNode.{SummedNode};
ghost use Rattle.bundle_bounds.specs.Laws.{IsNode};

use crate::leaders::Leaders;
use crate::question::Question;
use crate::summed_node::SummedNode;
use bundle_rules::{Bundle, Rows};

/// Keeps the node where its sections are wanted and not kept yet, and there is room for it or it is
/// preferred to the champion, which falls out where there is no room.
#[inline(always)]
pub(crate) fn put_better(question: &Question, summed: &SummedNode, leaders: &mut Leaders)
    requires question { IsQuestion question.now }
    requires summed { IsSummedOf (offer_asked question.now) summed.now }
    requires node { IsNode (offer_asked question.now) summed.now.node.place (chosen_of summed.now) }
    requires leaders { AreLeaders (offer_asked question.now) (aim_of question.now).name leaders.old }
    ensures leaders { AreLeaders (offer_asked question.now) (aim_of question.now).name leaders.new }
    ensures put { IsPut (offer_asked question.now) (aim_of question.now) (chosen_of summed.now)
        (kept_of leaders.old) (kept_of leaders.new) }
{
    if !is_wanted(question.offer.menu, question.given, &summed.node.chosen) {
        return;
    }
    if is_beaten(question, summed, leaders) {
        return;
    }
    if is_kept(question, summed, leaders) {
        return;
    }
    keep(question, summed, leaders);
}

// Whether as many are kept as may be, and the node is not preferred to the last of them.
#[inline(always)]
fn is_beaten(question: &Question, summed: &SummedNode, leaders: &Leaders) -> bool
    requires question { IsQuestion question.now }
    requires summed { IsSummedOf (offer_asked question.now) summed.now }
    requires node { IsNode (offer_asked question.now) summed.now.node.place (chosen_of summed.now) }
    requires leaders { AreLeaders (offer_asked question.now) (aim_of question.now).name leaders.now }
    ensures beaten { IsTrue result
        → (leaders.now.most ≤ length (nodes_of leaders.now.leading) + 1)
        × (¬ IsPreferredByName (aim_of question.now).name (wishes_of (offer_asked question.now).menu)
        (chosen_of summed.now) (chosen_of leaders.now.champion)) }
    ensures better { result ≡ false
        → leaders.now.most ≤ length (nodes_of leaders.now.leading) + 1
        → IsPreferredByName (aim_of question.now).name (wishes_of (offer_asked question.now).menu)
        (chosen_of summed.now) (chosen_of leaders.now.champion) }
{
    if !leaders.is_full() {
        return false;
    }
    !is_preferred(question, summed, &leaders.champion)
}

// Whether the node is kept already: a search may begin with it.
fn is_kept(question: &Question, summed: &SummedNode, leaders: &Leaders) -> bool
    requires summed { IsSummedOf (offer_asked question.now) summed.now }
    requires leaders { AreLeaders (offer_asked question.now) (aim_of question.now).name leaders.now }
    ensures { IsTrue result
        ↔ IsAmong (chosen_of summed.now) (bundles_kept (kept_of leaders.now)) }
{
    if are_same(question, summed, &leaders.champion) {
        return true;
    }
    is_one_of(question, leaders.leading.as_slice(), summed)
}

// Whether one of the nodes has the sections of this one.
fn is_one_of(question: &Question, nodes: &[SummedNode], summed: &SummedNode) -> bool
    requires nodes { All (IsSummedOf (offer_asked question.now)) nodes.now }
    requires summed { IsSummedOf (offer_asked question.now) summed.now }
    ensures { IsTrue result ↔ IsAmong (chosen_of summed.now) (map chosen_of nodes.now) }
{
    match nodes {
        [] => false,
        [first, others @ ..] => {
            if are_same(question, summed, first) {
                return true;
            }
            is_one_of(question, others, summed)
        }
    }
}

// Whether the two nodes have the same sections. Mostly their utility differs.
#[inline(always)]
fn are_same(question: &Question, one: &SummedNode, other: &SummedNode) -> bool
    requires one { IsSummedOf (offer_asked question.now) one.now }
    requires other { IsSummedOf (offer_asked question.now) other.now }
    ensures { IsTrue result ↔ (chosen_of one.now ≡ chosen_of other.now) }
{
    if one.utility() != other.utility() {
        return false;
    }
    one.node.chosen == other.node.chosen
}

// Keeps the node in its place. Where as many are kept as may be, the champion falls out.
fn keep(question: &Question, summed: &SummedNode, leaders: &mut Leaders)
    requires question { IsQuestion question.now }
    requires summed { IsSummedOf (offer_asked question.now) summed.now }
    requires node { IsNode (offer_asked question.now) summed.now.node.place (chosen_of summed.now) }
    requires leaders { AreLeaders (offer_asked question.now) (aim_of question.now).name leaders.old }
    requires is_wanted { (aim_of question.now).wanted (chosen_of summed.now) ≡ true }
    requires apart { ¬ IsAmong (chosen_of summed.now) (bundles_kept (kept_of leaders.old)) }
    requires better { leaders.old.most ≤ length (nodes_of leaders.old.leading) + 1
        → IsPreferredByName (aim_of question.now).name
        (wishes_of (offer_asked question.now).menu)
        (chosen_of summed.now) (chosen_of leaders.old.champion) }
    ensures leaders { AreLeaders (offer_asked question.now) (aim_of question.now).name leaders.new }
    ensures put { IsPut (offer_asked question.now) (aim_of question.now) (chosen_of summed.now)
        (kept_of leaders.old) (kept_of leaders.new) }
{
    make_room(leaders);
    let at = place_among(question, leaders.leading.as_slice(), summed);
    leaders.champion = leaders.leading.put(at, summed);
}

// Where fewer are kept than may be, the champion stands behind the others, so that it stays.
#[inline(always)]
fn make_room(leaders: &mut Leaders)
    requires { length (nodes_of leaders.old.leading) + 1 ≤ leaders.old.most }
    ensures champion { leaders.new.champion ≡ leaders.old.champion }
    ensures most { leaders.new.most ≡ leaders.old.most }
    ensures fewer { leaders.old.most ≤ length (nodes_of leaders.old.leading) + 1
        → nodes_of leaders.new.leading ≡ nodes_of leaders.old.leading }
    ensures all { (¬ (leaders.old.most ≤ length (nodes_of leaders.old.leading) + 1))
        → nodes_of leaders.new.leading
        ≡ nodes_of leaders.old.leading ++ leaders.old.champion ∷ [] }
{
    if leaders.is_full() {
        return;
    }
    let champion = leaders.champion;
    leaders.leading.push(&champion);
}

// Behind how many of these nodes, which are in order, the node is put.
fn place_among(question: &Question, nodes: &[SummedNode], summed: &SummedNode) -> usize
    requires question { IsQuestion question.now }
    requires summed { IsSummedOf (offer_asked question.now) summed.now }
    requires nodes { All (IsSummedOf (offer_asked question.now)) nodes.now }
    ensures within { result ≤ length nodes.now }
    ensures inserted { IsInserted
        (λ a b. IsPreferredByName (aim_of question.now).name
        (wishes_of (offer_asked question.now).menu) (chosen_of a) (chosen_of b))
        summed.now nodes.now (take result nodes.now ++ summed.now ∷ drop result nodes.now) }
{
    match nodes {
        [] => 0,
        [first, more @ ..] => {
            if is_preferred(question, summed, first) {
                return 0;
            }
            place_among(question, more, summed) + 1
        }
    }
}

// Whether the bundle has the section of the given place, where one is given.
#[inline(always)]
fn is_wanted(menu: &Rows, given: Option<u8>, bundle: &Bundle) -> bool
    requires { IfSome given (λ place. place < length menu.now.places) }
    ensures { result ≡ wanted_by menu.now given (sections_of bundle.now) }
{
    match given {
        Some(place) => bundle.has(menu.rated(place).section),
        None => true,
    }
}

// Whether the node's sections are preferred to those of another one.
#[inline(always)]
fn is_preferred(question: &Question, summed: &SummedNode, champion: &SummedNode) -> bool
    requires question { IsQuestion question.now }
    requires summed { IsSummedOf (offer_asked question.now) summed.now }
    requires champion { IsSummedOf (offer_asked question.now) champion.now }
    ensures { IsTrue result
        ↔ IsPreferredByName (aim_of question.now).name (wishes_of (offer_asked question.now).menu)
        (chosen_of summed.now) (chosen_of champion.now) }
{
    if summed.utility() < champion.utility() {
        return false;
    }
    if champion.utility() < summed.utility() {
        return true;
    }
    question
        .names
        .stand_first(summed.places(), summed.word, champion.word)
}
