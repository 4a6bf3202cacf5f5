// Nodes that have chosen the same sections.
ghost use Rattle.std.specs.Prelude.{◌≡◌, ◌<◌, ◌+◌, ◌++◌, ◌∷◌, [], true, IfSome, IfNone, IsTrue, length};
ghost use Rattle.bundle_rules.specs.{Ahead.is_ahead, Bundles.sections_of};
ghost use Rattle.bundle_rules.specs.{Menus.wishes_of, Menus.section_at, Wishes.IsFeasible};
ghost use Rattle.bundle_bounds.specs.Ahead.{limit_of};
ghost use Rattle.bundle_bounds.specs.Bounds.{bounds, IsFirstPruning, NonePrunes};
ghost use Rattle.bundle_bounds.specs.{Laws.IsNode, Offers.places_of, Opens.is_open, Views.data_of};

use crate::Offer;
use crate::base::Base;
use crate::chosen::Chosen;
use crate::leaving::leave;
use crate::nodes::{Leaf, Node};
use crate::opens::{Picks, Rests, collect, rests_of};
use crate::places::adjustments_with;
use crate::prospects::{NO_PROSPECTS, Prospect, Prospects};
use crate::pruning::{first_with, is_plain_below, plain_sum};
use crate::sifting::{Widened, rests_after, sift};
use crate::tangents::Tangents;
use bundle_rules::{Bundle, Places, is_ahead};
use market_units::{MAX_COURSES, MAX_RATINGS};

// The places of a menu, and the sections of a bundle.
const ROOM: usize = MAX_RATINGS;

const MOST: usize = MAX_COURSES as usize;

// At most this many places are on a menu.
const PLACES: u8 = MAX_RATINGS as u8;

/// Nodes that have chosen the same sections, one after another: each has one more place decided
/// than the one before it. What they share is kept: the open places with their worth, what the
/// chosen ones leave, and what was found of bounds.
#[derive(Clone, Copy)]
pub struct Stem {
    champion: Places,
    most: i32,
    chosen: [u8; MOST],
    count: usize,
    utility: i32,
    rests: Rests,
    limit: i64,
    room: [Prospect; ROOM],
    start: usize,
    plain: u64,
    tangents: Tangents,
    is_quiet: bool,
}

impl Stem {
    ghost use Rattle.bundle_bounds.specs.Stems.{IsStem};

    /// The stem at the root: no place is decided.
    #[inline(always)]
    pub fn root(offer: &Offer, champion: &Bundle) -> Stem
        requires champion { IsFeasible (wishes_of offer.now.menu.now) (sections_of champion.now) }
        ensures { IsStem (data_of offer.now)
            (sections_of champion.now) 0 [] result }
    {
        let places = &[];
        let picks = Picks { offer, places };
        let rests = rests_of(&picks);
        let chosen = Chosen {
            offer,
            places,
            rests,
        };
        let mut room = NO_PROSPECTS;
        let start = collect(&chosen, 0, &mut room);
        let list = &room[start..];
        let all = Prospects { list };
        let plain = plain_sum(&all);
        let most = offer.menu.utility(champion);
        Stem {
            champion: Places::of(offer.menu, champion),
            most,
            chosen: [0; MOST],
            count: 0,
            utility: 0,
            rests,
            limit: 1000 * i64::from(most),
            room,
            start,
            plain,
            tangents: Tangents::none(),
            is_quiet: false,
        }
    }

    /// Whether the next place of its node is open.
    pub fn is_next_open(&self, offer: &Offer, champion: &Bundle, node: &Node) -> bool
        requires stem { IsStem (data_of offer.now)
            (sections_of champion.now) node.now.place (sections_of node.now.chosen) self.now }
        requires left { node.now.place < length offer.now.menu.now.places }
        ensures { result
            ≡ is_open (data_of offer.now)
            (places_of offer.now.menu.now (sections_of node.now.chosen)) node.now.place }
    {
        match &self.room[self.start..] {
            [] => false,
            [one, ..] => one.place == node.place,
        }
    }

    /// The first bound that prunes its node for the champion, as `bound_closes` tells it.
    #[inline(always)]
    pub fn pruning(&mut self, offer: &Offer, champion: &Bundle, node: &Node) -> Option<Leaf>
        requires node { IsNode (data_of offer.now) node.now.place
            (sections_of node.now.chosen) }
        requires champion { IsFeasible (wishes_of offer.now.menu.now) (sections_of champion.now) }
        requires stem { IsStem (data_of offer.now)
            (sections_of champion.now) node.now.place (sections_of node.now.chosen) self.old }
        ensures first { IfSome result (IsFirstPruning (data_of offer.now) node.now.place (places_of offer.now.menu.now (sections_of node.now.chosen)) (places_of offer.now.menu.now (sections_of champion.now))
            (bounds (data_of offer.now) node.now.place (places_of offer.now.menu.now (sections_of node.now.chosen)))) }
        ensures none { IfNone result (NonePrunes (data_of offer.now) node.now.place (places_of offer.now.menu.now (sections_of node.now.chosen)) (places_of offer.now.menu.now (sections_of champion.now))
            (bounds (data_of offer.now) node.now.place (places_of offer.now.menu.now (sections_of node.now.chosen)))) }
        ensures stem { IsStem (data_of offer.now)
            (sections_of champion.now) node.now.place (sections_of node.now.chosen) self.new }
    {
        prove!(offer.menu.len() <= PLACES);
        if self.is_quiet {
            return None;
        }
        let base = Base::of(self.utility);
        // Most nodes end here, before the tangents are copied.
        if is_plain_below(base, self.limit, self.plain) {
            return Some(Leaf::Plain);
        }
        let mut tangents = self.tangents;
        let list = &self.room[self.start..];
        let all = Prospects { list };
        let leaf = first_with(
            base,
            self.limit,
            self.rests,
            &all,
            self.plain,
            &mut tangents,
        );
        self.tangents = tangents;
        self.is_quiet = leaf.is_none();
        leaf
    }

    /// Goes on to the node with the next place decided and not taken.
    #[inline(always)]
    pub fn pass(&mut self, offer: &Offer, champion: &Bundle, node: &Node)
        requires stem { IsStem (data_of offer.now)
            (sections_of champion.now) node.now.place (sections_of node.now.chosen) self.old }
        requires left { node.now.place < length offer.now.menu.now.places }
        ensures { IsStem (data_of offer.now)
            (sections_of champion.now) (node.now.place + 1) (sections_of node.now.chosen) self.new }
    {
        prove!(node.place < offer.menu.len());
        let champions = self.champion.as_slice();
        let limit = limit_after(self.most, champions, &self.chosen[..self.count], node.place);
        if !self.is_next_open(offer, champion, node) {
            self.is_quiet = is_still_quiet(self.is_quiet, self.limit, limit);
            self.limit = limit;
            return;
        }
        let list = &self.room[self.start..];
        let all = Prospects { list };
        let mut tangents = self.tangents;
        self.plain = leave(&all, self.plain, &mut tangents);
        self.tangents = tangents;
        self.start += 1;
        self.limit = limit;
        self.is_quiet = false;
    }

    /// Writes the stem of the node with the next place decided and taken, which is open, into the
    /// other one.
    pub fn take(&self, offer: &Offer, champion: &Bundle, node: &Node, below: &mut Stem)
        requires node { IsNode (data_of offer.now) node.now.place
            (sections_of node.now.chosen) }
        requires stem { IsStem (data_of offer.now)
            (sections_of champion.now) node.now.place (sections_of node.now.chosen) self.now }
        requires left { node.now.place < length offer.now.menu.now.places }
        requires open { is_open (data_of offer.now)
            (places_of offer.now.menu.now (sections_of node.now.chosen)) node.now.place
            ≡ true }
        ensures { IsStem (data_of offer.now)
            (sections_of champion.now) (node.now.place + 1)
            (sections_of node.now.chosen
            ++ section_at offer.now.menu.now.places node.now.place ∷ [])
            below.new }
    {
        let menu = offer.menu;
        prove!(node.place < menu.len());
        let rated = menu.rated(node.place);
        let before = &self.chosen[..self.count];
        let addition = i32::from(rated.rating) + adjustments_with(menu, before, node.place);
        let mut places = self.chosen;
        places[self.count] = node.place;
        let rests = rests_after(self.rests, &self.room[self.start]);
        let taken = &places[..self.count + 1];
        let chosen = Chosen {
            offer,
            places: taken,
            rests,
        };
        let later = &self.room[self.start + 1..];
        let later = Prospects { list: later };
        let wider = Widened {
            chosen,
            last: node.place,
        };
        let start = sift(&wider, &later, &mut below.room);
        let list = &below.room[start..];
        let all = Prospects { list };
        let plain = plain_sum(&all);
        let champions = self.champion.as_slice();
        let limit = limit_after(self.most, champions, taken, node.place);
        below.champion = self.champion;
        below.most = self.most;
        below.chosen = places;
        below.count = self.count + 1;
        below.utility = self.utility + addition;
        below.rests = rests;
        below.limit = limit;
        below.start = start;
        below.plain = plain;
        below.tangents = Tangents::none();
        below.is_quiet = false;
    }
}

// Whether a quiet node is followed by one: nothing changes but the limit, if that does.
fn is_still_quiet(is_quiet: bool, limit: i64, next: i64) -> bool
    ensures { IsTrue result → IsTrue is_quiet × (limit ≡ next) }
{
    is_quiet && limit == next
}

// The number below which a bound prunes the node with this place decided too.
fn limit_after(most: i32, champion: &[u8], chosen: &[u8], place: u8) -> i64
    requires { place < 255 }
    ensures { result ≡ limit_of most (is_ahead (place + 1) champion.now chosen.now) }
{
    if is_ahead(place + 1, champion, chosen) {
        1000 * (i64::from(most) + 1)
    } else {
        1000 * i64::from(most)
    }
}
