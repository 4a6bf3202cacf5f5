// The open places that stay open beside one more chosen place.
ghost use Rattle.std.specs.Prelude.{◌≡◌, ◌<◌, ◌≤◌, ◌-◌, ◌++◌, ◌∷◌, [], ℕ, List, ◌+ℤ◌, pos, not, nat_le, ◌&&◌, true, length, drop, All};
ghost use Rattle.std.specs.List.{AllByRecursion};
ghost use Rattle.market_units.specs.Totals.{total};
ghost use Rattle.bundle_rules.specs.Menus.{adjustment_in, clash_in};
ghost use Rattle.bundle_bounds.specs.Modest.{IsModest, AreOn};
ghost use Rattle.bundle_bounds.specs.Opens.{above_zero, is_open, open_among, prospects};
ghost use Rattle.bundle_bounds.specs.Views.{data_of};

use crate::chosen::Chosen;
use crate::opens::{Rests, hopes, worth_of};
use crate::places::adjustments_with;
use crate::prospects::{Prospect, Prospects};
use bundle_rules::Rows;
use market_units::MAX_RATINGS;

/// What is left of the budget, the credits and the courses once one more place is chosen; 0 where
/// it takes more than is left.
pub(crate) fn rests_after(rests: Rests, one: &Prospect) -> Rests
    ensures budget { result.budget ≡ rests.budget - one.now.price }
    ensures credits { result.credits ≡ rests.credits - one.now.credits }
    ensures courses { result.courses ≡ rests.courses - 1 }
{
    Rests {
        budget: rests.budget.saturating_sub(one.price),
        credits: rests.credits.saturating_sub(u32::from(one.credits)),
        courses: rests.courses.saturating_sub(1),
    }
}

/// Chosen places, and a place of the menu, which is to be the last of them.
#[derive(Clone, Copy)]
pub(crate) struct Widened<'c, 'o> {
    pub(crate) chosen: Chosen<'c, 'o>,
    pub(crate) last: u8,
    ghost on_menu: { last < length chosen.offer.now.menu.now.places },
}

// Whether an open place stays open beside the last one, with what the chosen ones leave.
#[inline(always)]
fn stays_open(wider: &Widened, one: &Prospect) -> bool
    requires { one.now.place < length wider.now.chosen.offer.now.menu.now.places }
    ensures { result
        ≡ (not
        (clash_in wider.now.chosen.offer.now.menu.now.clashes one.now.place wider.now.last)
        && (nat_le one.now.price wider.now.chosen.rests.budget
        && (nat_le one.now.credits wider.now.chosen.rests.credits
        && nat_le 1 wider.now.chosen.rests.courses))) }
{
    let rests = wider.chosen.rests;
    if rests.courses < 1 || one.price > rests.budget {
        return false;
    }
    let menu = wider.chosen.offer.menu;
    u32::from(one.credits) <= rests.credits && !menu.clash(one.place, wider.last)
}

// What the adjustments of an open place with later ones can add, from what it added by itself before
// the last place was chosen. Where that was its whole worth, no later place could add to it, so none
// of those that are left can.
fn hopes_left(menu: &Rows, one: &Prospect, before: i32, later: &[Prospect]) -> u32
    requires on_menu { AreOn menu.now later.now }
    requires place { one.now.place < length menu.now.places }
    requires few { length later.now ≤ MAX_RATINGS }
    requires worth { one.now.worth ≤ 20000 }
    ensures value { (all : ℕ) → one.now.worth ≡ above_zero (before +ℤ pos all)
        → total (λ other. above_zero (adjustment_in menu.now.pairs one.now.place other.place))
        later.now
        ≤ all
        → result
        ≡ total (λ other. above_zero (adjustment_in menu.now.pairs one.now.place other.place))
        later.now }
    ensures high { result ≤ 12000 }
{
    if one.worth as i32 == before {
        0
    } else {
        hopes(menu, one.place, later)
    }
}

/// Writes the prospects of those open places that stay open beside the last chosen one to the end
/// of the room, and gives where they begin.
pub(crate) fn sift(wider: &Widened, all: &Prospects, room: &mut [Prospect; MAX_RATINGS]) -> usize
    requires { AreOn wider.now.chosen.offer.now.menu.now all.now.list.now }
    ensures value { (before others : List ℕ)
        → wider.now.chosen.places.now ≡ before ++ wider.now.last ∷ []
        → AllByRecursion
        (λ other. is_open (data_of wider.now.chosen.offer.now) before other ≡ true) others
        → all.now.list.now ≡ prospects (data_of wider.now.chosen.offer.now) before others
        → drop result room.new
        ≡ open_among (data_of wider.now.chosen.offer.now) wider.now.chosen.places.now others }
    ensures within { result ≤ MAX_RATINGS }
    ensures modest { All IsModest (drop result room.new) }
    ensures on_menu { AreOn wider.now.chosen.offer.now.menu.now (drop result room.new) }
{
    let menu = wider.chosen.offer.menu;
    let list = all.list;
    let mut start = room.len();
    for index in (0..list.len()).rev() {
        let one = &list[index];
        if !stays_open(wider, one) {
            continue;
        }
        let rating = menu.rated(one.place).rating;
        let adjustments = adjustments_with(menu, wider.chosen.places, one.place);
        let own = i32::from(rating) + adjustments;
        let before = own - i32::from(menu.adjustment(wider.last, one.place));
        let later_ones = hopes_left(menu, one, before, &room[start..]);
        room[start - 1] = Prospect {
            place: one.place,
            course: one.course,
            worth: worth_of(rating, adjustments, later_ones),
            price: one.price,
            credits: one.credits,
        };
        start -= 1;
    }
    start
}
