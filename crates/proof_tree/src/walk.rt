// The walk of a tree: its nodes one after another, each with its canonical sign.
ghost use Rattle.std.specs.Prelude.{◌≡◌, ◌≢◌, ◌<◌, ◌≤◌, ◌+◌, ◌++◌, ◌∷◌, [], ℕ, List, IfSome, IfNone, OnSome, length, slice_index_or};
ghost use Rattle.bundle_bounds.specs.{Offers.OfferData, Stems.IsStem, declared.nodes.Node.Node};
ghost use Rattle.bundle_rules.specs.Menus.{MenuData};
ghost use Rattle.proof_tree.specs.Claims.{offer_in, champion_in, champions_places};
ghost use Rattle.proof_tree.specs.Standing.{HaveStems};
ghost use Rattle.proof_tree.specs.{Steps.AreWaiting, Steps.MayWait, Steps.IsStep, Texts.IsShort};
ghost use Rattle.proof_tree.specs.Visits.{chosen_at, HasStemAt, IsSignAt};
ghost use Rattle.proof_tree.specs.{Walks.below, declared.signs.Sign.Sign};
ghost use Rattle.proof_tree.specs.declared.walk.Step.TheVariants.{Signed};

use crate::claim::Claim;
use crate::signs::{Sign, sign_at};
use crate::standing::with_next;
use crate::visit::Visit;
use bundle_bounds::{Node, Stem};
use bundle_rules::Bundle;
use market_units::{MAX_COURSES, MAX_RATINGS};

// Under a node at most as many nodes wait as it has chosen sections, and these are at most 8.
const ROOM: usize = MAX_COURSES as usize + 1;

// At most this many places are on a menu.
pub(crate) const PLACES: u8 = MAX_RATINGS as u8;

/// What the walk comes to: a node with its canonical sign, a node that has none, or the end.
#[derive(Clone, Copy, Debug)]
pub(crate) enum Step {
    Signed(Sign),
    Unsigned,
    Ended,
}

/// The stem of the root of a claim's tree. It is made apart from the walk: what begins a walk is
/// then short enough to be inlined, and a walk of 8 KB is made where it stands, and not moved there.
pub(crate) fn root_stem(claim: &Claim) -> Stem
    ensures { IsStem (offer_in claim.now) (champion_in claim.now) 0 [] result }
{
    Stem::root(claim.offer, claim.champion)
}

/// The nodes of a tree that wait to be visited, the next one last.
#[derive(Drop)]
pub(crate) struct Walk {
    waiting: [Node; ROOM],
    stems: [Stem; ROOM],
    count: usize,
}

impl Walk {
    ghost use Rattle.proof_tree.specs.Steps.{waiting_of, spots_of};

    /// The walk that begins at the root, which has this stem: no place is decided, and no section
    /// is chosen.
    #[inline(always)]
    pub(crate) fn start(stem: &Stem) -> Walk
        ensures waiting { (menu : MenuData) → spots_of menu (waiting_of result) ≡ (0, []) ∷ [] }
        ensures may_wait { (offer : OfferData) → AreWaiting offer result }
        ensures stems { (offer : OfferData) (champion : List ℕ)
            → IsStem offer champion 0 [] stem.now → HaveStems offer champion result }
    {
        let root = Node {
            place: 0,
            chosen: Bundle::empty(),
        };
        Walk {
            waiting: [root; ROOM],
            stems: [*stem; ROOM],
            count: 1,
        }
    }

    /// Visits the next node: `Signed` with its canonical sign, and then the nodes below it wait;
    /// `Unsigned` where it has no such sign; `Ended` where no node is left.
    #[inline(always)]
    pub(crate) fn step(&mut self, claim: &Claim) -> Step
        requires waiting { AreWaiting (offer_in claim.now) self.old }
        requires stems { HaveStems (offer_in claim.now) (champion_in claim.now) self.old }
        ensures stems { HaveStems (offer_in claim.now) (champion_in claim.now) self.new }
        ensures waiting { AreWaiting (offer_in claim.now) self.new }
        ensures short { (sign : Sign) → result ≡ Signed sign → IsShort sign }
        ensures step { IsStep (offer_in claim.now) claim.now.required (champions_places claim.now)
            (spots_of (offer_in claim.now).menu (waiting_of self.old)) result
            (spots_of (offer_in claim.now).menu (waiting_of self.new)) }
    {
        let Some(node) = self.take() else {
            return Step::Ended;
        };
        let visit = Visit {
            claim: *claim,
            node,
        };
        let at = self.count;
        let Some(sign) = sign_at(&visit, &mut self.stems[at]) else {
            return Step::Unsigned;
        };
        self.put_below(&visit, sign);
        Step::Signed(sign)
    }

    // Takes the next node, and `None` exactly where none waits.
    fn take(&mut self) -> Option<Node>
        requires { self.old.count ≤ MAX_COURSES + 1 }
        ensures some { IfSome result (λ node. waiting_of self.old ≡ node ∷ waiting_of self.new) }
        ensures few { OnSome result (self.new.count ≤ MAX_COURSES) }
        ensures one { OnSome result (self.old ≡ record self.new { count = self.new.count + 1 }) }
        ensures node { IfSome result
            (λ node. node ≡ slice_index_or self.new.waiting self.new.count node) }
        ensures none { IfNone result (waiting_of self.old ≡ []) }
        ensures same { IfNone result (self.new ≡ self.old) }
    {
        if self.count == 0 {
            return None;
        }
        self.count -= 1;
        Some(self.waiting[self.count])
    }

    // Lets a node wait, which is the next that is visited.
    fn put(&mut self, node: Node)
        requires { self.old.count < MAX_COURSES + 1 }
        ensures count { self.new.count ≡ self.old.count + 1 }
        ensures whole { length self.new.waiting ≡ MAX_COURSES + 1 }
        ensures waiting { waiting_of self.new ≡ node ∷ waiting_of self.old }
        ensures here { (d : Node) → slice_index_or self.new.waiting self.old.count d ≡ node }
        ensures others { (i : ℕ) (d : Node) → i ≢ self.old.count
            → slice_index_or self.new.waiting i d ≡ slice_index_or self.old.waiting i d }
        ensures stems { self.new.stems ≡ self.old.stems }
    {
        self.waiting[self.count] = node;
        self.count += 1;
    }

    // Lets the nodes below a node wait. The stem of the node stands behind those of the nodes that
    // wait; the stems of the nodes below it take its place.
    #[inline(always)]
    fn put_below(&mut self, visit: &Visit, sign: Sign)
        requires few { self.old.count ≤ MAX_COURSES }
        requires waits { MayWait (offer_in visit.now.claim) (visit.now.node ∷ waiting_of self.old) }
        requires sign { IsSignAt visit.now sign }
        requires stems { HaveStems (offer_in visit.now.claim) (champion_in visit.now.claim)
            self.old }
        requires stem { HasStemAt visit.now self.old.stems self.old.count }
        ensures may_wait { AreWaiting (offer_in visit.now.claim) self.new }
        ensures stems { HaveStems (offer_in visit.now.claim) (champion_in visit.now.claim)
            self.new }
        ensures below { spots_of (offer_in visit.now.claim).menu (waiting_of self.new)
            ≡ below sign visit.now.node.place (chosen_at visit.now)
            ++ spots_of (offer_in visit.now.claim).menu (waiting_of self.old) }
    {
        let claim = &visit.claim;
        prove!(claim.offer.menu.len() <= PLACES);
        let at = self.count;
        let without = Node {
            place: visit.node.place + 1,
            chosen: visit.node.chosen,
        };
        match sign {
            Sign::Champion => {}
            Sign::Shut => {}
            Sign::Pruned(_) => {}
            Sign::Forced => {
                let with = with_next(visit, &mut self.stems, at);
                self.stems[at] = self.stems[at + 1];
                self.put(with);
            }
            Sign::Open => {
                let with = with_next(visit, &mut self.stems, at);
                self.stems[at].pass(claim.offer, claim.champion, &visit.node);
                self.put(without);
                self.put(with);
            }
            Sign::Passed => {
                self.stems[at].pass(claim.offer, claim.champion, &visit.node);
                self.put(without);
            }
        }
    }
}
