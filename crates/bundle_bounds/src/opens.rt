// Which places are open at a node, and the most that each can add.
ghost use Rattle.std.specs.Prelude.{◌≡◌, ◌<◌, ◌≤◌, ◌-◌, ◌+◌, ◌*◌, ◌≤ℤ◌, ◌+ℤ◌, neg_ℤ, pos, unsigned_abs, nat_le, ◌&&◌, length, map, drop, All};
ghost use Rattle.market_units.specs.Totals.{total};
ghost use Rattle.market_units.specs.declared.limits.TheConstants.{MAX_COURSES};
ghost use Rattle.bundle_rules.specs.Menus.{credits_at, adjustment_in};
ghost use Rattle.bundle_bounds.specs.Modest.{IsModest, AreOn};
ghost use Rattle.bundle_bounds.specs.Offers.{AreOnMenu, allowed_at, price_at};
ghost use Rattle.bundle_bounds.specs.Opens.{is_apart, opens_from, prospects, first_of_course, above_zero};
ghost use Rattle.bundle_bounds.specs.{Rests.AreRests, Views.data_of};

use crate::Offer;
use crate::chosen::Chosen;
use crate::places::{adjustments_with, is_apart, price_of_place};
use crate::prospects::Prospect;
use bundle_rules::{Rated, Rows};
use market_units::{MAX_ADJUSTMENT, MAX_COURSES, MAX_PRICE, MAX_RATINGS, MAX_SECTION_CREDITS};

/// What the chosen places leave of each resource.
#[derive(Clone, Copy)]
pub(crate) struct Rests {
    pub(crate) budget: u32,
    pub(crate) credits: u32,
    pub(crate) courses: u32,
}

/// Places of an offer's menu, at most 8 of them.
#[derive(Clone, Copy)]
pub(crate) struct Picks<'p, 'o> {
    pub(crate) offer: &'p Offer<'o>,
    pub(crate) places: &'p [u8],
    ghost on_menu: { AreOnMenu offer.now.menu.now places.now },
    ghost few: { length places.now ≤ MAX_COURSES },
}

/// What places that are chosen leave of the budget in tokens, of the credit cap and of the course
/// cap; 0 where they take more.
pub(crate) fn rests_of(picks: &Picks) -> Rests
    ensures { AreRests (data_of picks.now.offer.now) picks.now.places.now result }
{
    let menu = picks.offer.menu;
    let budget = picks.offer.budget.0;
    Rests {
        budget: budget.saturating_sub(price_of(picks)),
        credits: u32::from(menu.credits()).saturating_sub(credits_of(picks)),
        courses: u32::from(menu.courses()).saturating_sub(picks.places.len() as u32),
    }
}

fn price_of(picks: &Picks) -> u32
    ensures value { result ≡ total (price_at (data_of picks.now.offer.now)) picks.now.places.now }
    ensures high { result ≤ MAX_PRICE * length picks.now.places.now }
{
    let offer = picks.offer;
    match picks.places {
        [] => 0,
        [place, more @ ..] => {
            let later = Picks {
                offer,
                places: more,
            };
            price_of_place(offer.menu, offer.prices, *place) + price_of(&later)
        }
    }
}

fn credits_of(picks: &Picks) -> u32
    ensures value { result
        ≡ total (credits_at picks.now.offer.now.menu.now.places) picks.now.places.now }
    ensures high { result ≤ MAX_SECTION_CREDITS * length picks.now.places.now }
{
    let offer = picks.offer;
    match picks.places {
        [] => 0,
        [place, more @ ..] => {
            let later = Picks {
                offer,
                places: more,
            };
            u32::from(offer.menu.rated(*place).credits) + credits_of(&later)
        }
    }
}

/// The most that a place's adjustments with later open places can add to the utility: the positive
/// ones, added up.
pub(crate) fn hopes(menu: &Rows, place: u8, later: &[Prospect]) -> u32
    requires on_menu { AreOn menu.now later.now }
    requires place { place < length menu.now.places }
    requires few { length later.now ≤ MAX_RATINGS }
    ensures value { result
        ≡ total (λ other. above_zero (adjustment_in menu.now.pairs place other.place)) later.now }
    ensures high { result ≤ unsigned_abs MAX_ADJUSTMENT * length later.now }
{
    match later {
        [] => 0,
        [other, more @ ..] => {
            u32::from(menu.adjustment(place, other.place).max(0) as u16) + hopes(menu, place, more)
        }
    }
}

/// Whether an undecided place is open: it is allowed, clashes with no chosen place, and fits what
/// is left of the budget and of both caps.
pub(crate) fn is_open_at(chosen: &Chosen, place: u8) -> bool
    requires { place < length chosen.now.offer.now.menu.now.places }
    ensures { result ≡ (allowed_at (data_of chosen.now.offer.now) place
        && (is_apart (data_of chosen.now.offer.now) chosen.now.places.now place
        && (nat_le (price_at (data_of chosen.now.offer.now) place) chosen.now.rests.budget
        && (nat_le (credits_at chosen.now.offer.now.menu.now.places place) chosen.now.rests.credits
        && nat_le 1 chosen.now.rests.courses)))) }
{
    let offer = chosen.offer;
    let rests = chosen.rests;
    let rated = offer.menu.rated(place);
    if !offer.allowed.has(rated.section) {
        return false;
    }
    if !is_apart(offer.menu, chosen.places, place) {
        return false;
    }
    if price_of_place(offer.menu, offer.prices, place) > rests.budget {
        return false;
    }
    u32::from(rated.credits) <= rests.credits && 1 <= rests.courses
}

// The first place of a course, or the number of places where there is none.
fn first_of_course(places: &[Rated], course: u16) -> usize
    ensures value { result ≡ first_of_course places.now course }
    ensures within { result ≤ length places.now }
{
    match places {
        [] => 0,
        [rated, more @ ..] => {
            if rated.course == course {
                0
            } else {
                first_of_course(more, course) + 1
            }
        }
    }
}

/// The most that a place can add to the utility: its rating, its adjustments with the chosen
/// places, and what those with later places can add; 0 where the sum is negative.
pub(crate) fn worth_of(rating: u8, adjustments: i32, hopes: u32) -> u32
    requires low { neg_ℤ (pos 1600) ≤ℤ adjustments }
    requires high { adjustments ≤ℤ pos 1600 }
    requires hopes { hopes ≤ 12000 }
    ensures value { result ≡ above_zero ((pos rating +ℤ adjustments) +ℤ pos hopes) }
    ensures high { result ≤ 20000 }
{
    let sum = i32::from(rating) + adjustments + hopes as i32;
    if sum < 0 { 0 } else { sum as u32 }
}

// The first place of a course on the menu.
fn course_of(menu: &Rows, course: u16) -> u8
    ensures { result ≡ first_of_course menu.now.places course }
{
    first_of_course(menu.places(), course) as u8
}

/// Writes the prospects of the open places from a place on to the end of the room, in the menu's
/// order, and gives where they begin.
pub(crate) fn collect(chosen: &Chosen, place: u8, room: &mut [Prospect; MAX_RATINGS]) -> usize
    requires place { place ≤ length chosen.now.offer.now.menu.now.places }
    ensures value { drop result room.new
        ≡ prospects (data_of chosen.now.offer.now) chosen.now.places.now
        (opens_from (data_of chosen.now.offer.now) chosen.now.places.now place
        (length chosen.now.offer.now.menu.now.places - place)) }
    ensures within { result ≤ MAX_RATINGS }
    ensures space { MAX_RATINGS
        ≤ result + (length chosen.now.offer.now.menu.now.places - place) }
    ensures modest { All IsModest (drop result room.new) }
    ensures on_menu { AreOn chosen.now.offer.now.menu.now (drop result room.new) }
{
    let menu = chosen.offer.menu;
    if place == menu.len() {
        return room.len();
    }
    let start = collect(chosen, place + 1, room);
    if !is_open_at(chosen, place) {
        return start;
    }
    let rated = menu.rated(place);
    let adjustments = adjustments_with(menu, chosen.places, place);
    let later_ones = hopes(menu, place, &room[start..]);
    room[start - 1] = Prospect {
        place,
        course: course_of(menu, rated.course),
        worth: worth_of(rated.rating, adjustments, later_ones),
        price: price_of_place(menu, chosen.offer.prices, place),
        credits: rated.credits,
    };
    start - 1
}
