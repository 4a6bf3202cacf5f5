// How the tables of what can be reached are filled, from the last place to the first.
ghost use Rattle.std.specs.Prelude.{◌≡◌, ◌≢◌, ◌<◌, ◌≤◌, ◌*◌, ◌+◌, ◌-◌, ◌/◌, ◌^◌, ℕ, true, max, unsigned_abs, length, slice_index, All};
ghost use Rattle.market_units.specs.declared.limits.TheConstants.{MAX_RATINGS};
ghost use Rattle.market_units.specs.declared.units.Tokens.{Tokens};
ghost use Rattle.bundle_rules.specs.Menus.{adjustment_in, clash_in, credits_at, IsPair};
ghost use Rattle.bundle_bounds.specs.{Offers.allowed_at, Opens.above_zero, Views.data_of};
ghost use Rattle.demand_oracle.specs.Reaches.{HasRaised, HoldsHopes, HoldsCovers, IsLightest, AreSmall, IsAsked, IsPlaced, number_at, top_of, within_at};
ghost use Rattle.demand_oracle.specs.Values.{hopes_from, value};

use crate::gain::Gain;
use crate::multipliers::Multipliers;
use crate::spot::Spot;
use crate::unit::Unit;
use bundle_bounds::{Offer, price_of_place};
use bundle_rules::Rows;
use market_units::{MAX_ADJUSTMENT, MAX_COURSES, MAX_RATINGS, MAX_SECTION_CREDITS};

pub(crate) const ROWS: usize = MAX_RATINGS + 1;

pub(crate) const PLACES: usize = MAX_RATINGS;

// At most this many places are on a menu.
pub(crate) const MOST_PLACES: u8 = MAX_RATINGS as u8;

pub(crate) const COUNTS: usize = MAX_COURSES as usize + 1;

// With twice as many, 5 percent fewer nodes are opened, and the table takes twice as long to fill.
pub(crate) const UNITS: usize = 64;

pub(crate) const MILLION: u64 = 1_000_000;

pub(crate) const THOUSAND: u64 = 1_000;

// What can be added from each place on, by at most so many places that cost at most so many units,
// in thousandths of a point of utility: a row for each place and count.
pub(crate) type Table = [[u32; UNITS]; ROWS * COUNTS];

/// The least credits of an allowed place of the menu; the most that any section may have, where
/// none is allowed.
pub(crate) fn lightest(offer: &Offer) -> u16
    ensures { IsLightest (data_of offer.now) result }
{
    let mut lightest = MAX_SECTION_CREDITS;
    for place in 0..offer.menu.len() {
        let spot = Spot { offer, place };
        lightest = lighter(&spot, lightest);
    }
    lightest
}

// The credits of a place, where it is allowed and these are fewer than so many, and else so many.
fn lighter(spot: &Spot, lightest: u16) -> u16
    ensures within { result ≤ lightest }
    ensures lightest { allowed_at (data_of spot.now.offer.now) spot.now.place ≡ true
        → result ≤ credits_at spot.now.offer.now.menu.now.places spot.now.place }
{
    let rated = spot.offer.menu.rated(spot.place);
    if !spot.offer.allowed.has(rated.section) {
        return lightest;
    }
    lightest.min(rated.credits)
}

/// Fills the table of hopes: what a place's positive adjustments with the allowed places from
/// another one on can add to the utility.
pub(crate) fn put_hopes(offer: &Offer, hopes: &mut [[u16; PLACES]; ROWS])
    ensures { HoldsHopes (data_of offer.now) hopes.new 0 }
{
    let count = offer.menu.len();
    prove!(count <= MOST_PLACES);
    let raised = raised_by_earlier(offer.menu.pairs());
    hopes[usize::from(count)] = [0; PLACES];
    for place in (0..count).rev() {
        hopes[usize::from(place)] = hopes[usize::from(place) + 1];
        let spot = Spot { offer, place };
        add_hopes(&spot, raised, &mut hopes[usize::from(place)]);
    }
}

// Adds to what the adjustments of earlier places with the places behind this one can add what they
// can add with this one: nothing, where its bit of the word is not set.
fn add_hopes(spot: &Spot, raised: u64, hopes: &mut [u16; PLACES])
    requires raised { HasRaised spot.now.offer.now.menu.now.pairs raised }
    requires hopes { (earlier : ℕ) → earlier < spot.now.place + 1
        → slice_index hopes.old earlier
        ≡ hopes_from (data_of spot.now.offer.now) (spot.now.place + 1) earlier }
    ensures { (earlier : ℕ) → earlier < spot.now.place
        → slice_index hopes.new earlier
        ≡ hopes_from (data_of spot.now.offer.now) spot.now.place earlier }
{
    let menu = spot.offer.menu;
    prove!(spot.place < menu.len());
    if (raised >> spot.place) & 1 == 0 {
        return;
    }
    if !spot.offer.allowed.has(menu.rated(spot.place).section) {
        return;
    }
    for earlier in 0..spot.place {
        hopes[usize::from(earlier)] += hope_of(spot, earlier);
    }
}

// The word of the places that have a positive adjustment with an earlier one: mostly few of a menu.
fn raised_by_earlier(pairs: &[(u8, u8, i16)]) -> u64
    requires { All (IsPair MAX_RATINGS) pairs.now }
    ensures { HasRaised pairs.now result }
{
    match pairs {
        [] => 0,
        [(_, place, by), more @ ..] => {
            let word = raised_by_earlier(more);
            if *by > 0 { word | 1 << place } else { word }
        }
    }
}

// The adjustment of a place with another, or 0 where it is negative.
fn hope_of(spot: &Spot, earlier: u8) -> u16
    requires { earlier < length spot.now.offer.now.menu.now.places }
    ensures value { result
        ≡ above_zero (adjustment_in spot.now.offer.now.menu.now.pairs earlier spot.now.place) }
    ensures high { result ≤ unsigned_abs MAX_ADJUSTMENT }
{
    // In this order the numbers that a loop over earlier places reads stand side by side.
    spot.offer.menu.adjustment(spot.place, earlier).max(0) as u16
}

/// Fills the table of the most that the places from each one on can add, so many of them at most,
/// which cost so many units at most.
pub(crate) fn put_most(
    offer: &Offer,
    multipliers: Multipliers,
    unit: Unit,
    hopes: &[[u16; PLACES]; ROWS],
    most: &mut Table,
)
    requires { HoldsHopes (data_of offer.now) hopes.now 0 }
    ensures { HoldsCovers (data_of offer.now) multipliers unit.shift
        (top_of (data_of offer.now) unit.shift) most.new 0 }
{
    put_nothing(offer.menu, most);
    let count = offer.menu.len();
    for place in (0..count).rev() {
        let hoped = hopes[usize::from(place) + 1][usize::from(place)];
        let spot = Spot { offer, place };
        put_place(&spot, multipliers, unit, hoped, most);
    }
}

// Writes that no place is left to add anything.
fn put_nothing(menu: &Rows, most: &mut Table)
    ensures { (count units : ℕ) → count ≤ MAX_COURSES
        → within_at most.new (length menu.now.places) count units ≡ 0 }
{
    let place = usize::from(menu.len());
    for count in 0..COUNTS {
        most[place * COUNTS + count] = [0; UNITS];
    }
}

// Writes the most that so many places from this one on can add, where its adjustments with later
// ones can add so much.
fn put_place(spot: &Spot, multipliers: Multipliers, unit: Unit, hoped: u16, most: &mut Table)
    requires { AreSmall spot.now.offer.now.menu.now.courses
        (top_of (data_of spot.now.offer.now) unit.shift) most.old (spot.now.place + 1)
        (length spot.now.offer.now.menu.now.places) }
    ensures covers { hoped
        ≡ hopes_from (data_of spot.now.offer.now) (spot.now.place + 1) spot.now.place
        → HoldsCovers (data_of spot.now.offer.now) multipliers unit.shift
        (top_of (data_of spot.now.offer.now) unit.shift) most.old (spot.now.place + 1)
        → HoldsCovers (data_of spot.now.offer.now) multipliers unit.shift
        (top_of (data_of spot.now.offer.now) unit.shift) most.new spot.now.place }
    ensures small { AreSmall spot.now.offer.now.menu.now.courses
        (top_of (data_of spot.now.offer.now) unit.shift) most.new spot.now.place
        (length spot.now.offer.now.menu.now.places) }
{
    let offer = spot.offer;
    let menu = offer.menu;
    let place = spot.place;
    prove!(place < menu.len());
    let top = unit.last_column(offer.budget);
    if !offer.allowed.has(menu.rated(place).section) {
        let nothing = Gain {
            value: 0,
            cost: UNITS,
        };
        put_counts(spot, place + 1, nothing, top, most);
        return;
    }
    let value = thousandths(value_at(spot, multipliers, hoped));
    let cost = unit.whole_in(price_of_place(menu, offer.prices, place));
    let next = next_apart(spot, place + 1);
    let gain = Gain {
        value,
        cost: cost as usize,
    };
    put_counts(spot, next, gain, top, most);
}

// What is left of a million times the most that a place can add, where its adjustments with later
// places can add so much. Adjustments count at the lower place alone: with twenty pairs that opens
// half the nodes of counting them at both.
fn value_at(spot: &Spot, multipliers: Multipliers, hoped: u16) -> u64
    ensures value { hoped
        ≡ hopes_from (data_of spot.now.offer.now) (spot.now.place + 1) spot.now.place
        → result ≡ value (data_of spot.now.offer.now) multipliers spot.now.place }
    ensures high { result ≤ 65635000000 }
{
    let menu = spot.offer.menu;
    let rated = menu.rated(spot.place);
    let most_added = u64::from(rated.rating) + u64::from(hoped);
    let cost = price_of_place(menu, spot.offer.prices, spot.place);
    let price = multipliers.money * u64::from(cost);
    let credits = multipliers.credits * u64::from(rated.credits);
    (MILLION * most_added).saturating_sub(price + credits)
}

// The first place from one on that does not clash with an earlier one, or the number of places
// where there is none. Clashes behind the first gap exclude nothing: sections of one course mostly
// stand side by side in a catalogue.
fn next_apart(spot: &Spot, from: u8) -> u8
    requires { from ≤ length spot.now.offer.now.menu.now.places }
    ensures within { result ≤ length spot.now.offer.now.menu.now.places }
    ensures from { from ≤ result }
    ensures between { (other : ℕ) → from ≤ other → other < result
        → clash_in spot.now.offer.now.menu.now.clashes spot.now.place other ≡ true }
{
    let menu = spot.offer.menu;
    if from == menu.len() || !menu.clash(spot.place, from) {
        return from;
    }
    next_apart(spot, from + 1)
}

// So many millionths in thousandths, rounded up. In thousandths a number of the table has 32 bits;
// multipliers stay in millionths, since at prices of 25,000 one in thousandths would be below 10.
fn thousandths(value: u64) -> u32
    requires { value ≤ 65635000000 }
    ensures value { value ≤ 1000 * result }
    ensures high { result ≤ 65635001 }
{
    (value / THOUSAND + 1) as u32
}

// For each count up to the course cap, and for each number of units that is asked with it, the
// greater one of what so many later places can add, and of the value with what one fewer can add
// from the next place on that does not clash.
fn put_counts(spot: &Spot, next: u8, gain: Gain, top: usize, most: &mut Table)
    requires later { spot.now.place < next }
    requires on_menu { next ≤ length spot.now.offer.now.menu.now.places }
    requires top { top < 64 }
    requires small { (count units : ℕ) → count < spot.now.offer.now.menu.now.courses → units ≤ top
        → within_at most.old next count units ≤ 65635001 * count }
    ensures { IsPlaced spot.now.offer.now.menu.now.courses top gain.value gain.cost spot.now.place
        next most.old most.new }
{
    let menu = spot.offer.menu;
    prove!(next <= menu.len());
    let row = usize::from(spot.place) * COUNTS;
    let after = row + COUNTS;
    let apart = usize::from(next) * COUNTS;
    most[row] = most[after];
    for count in 1..usize::from(menu.courses()) + 1 {
        let first = first_asked(menu, top, count);
        put_row(
            row + count,
            after + count,
            apart + count - 1,
            gain,
            first,
            top,
            most,
        );
    }
}

// The least number of units that is asked with a count.
fn first_asked(menu: &Rows, top: usize, count: usize) -> usize
    ensures { (units : ℕ) → IsAsked menu.now.courses top count units → result ≤ units }
{
    if count < usize::from(menu.courses()) {
        0
    } else {
        top
    }
}

// Writes a row of the table, from a first number of units to a last one: the greater one of the
// number of a row behind it, and of the value with that of another where so many units fewer are
// left.
#[inline(always)]
fn put_row(
    row: usize,
    later: usize,
    apart: usize,
    gain: Gain,
    first: usize,
    top: usize,
    most: &mut Table,
)
    requires later { row < later }
    requires apart { row < apart }
    requires later_high { later < 549 }
    requires apart_high { apart < 549 }
    requires top { top < 64 }
    requires small { (units : ℕ) → units ≤ top → number_at most.old apart units ≤ 525080008 }
    ensures dear { (units : ℕ) → first ≤ units → units ≤ top → units < gain.cost
        → number_at most.new row units ≡ number_at most.old later units }
    ensures more { (units : ℕ) → first ≤ units → units ≤ top → gain.cost ≤ units
        → number_at most.new row units
        ≡ max (number_at most.old later units)
        (number_at most.old apart (units - gain.cost) + gain.value) }
    ensures others { (one units : ℕ) → one ≢ row
        → number_at most.new one units ≡ number_at most.old one units }
{
    let (front, behind) = most.split_at_mut(row + 1);
    put_most_within(
        &behind[later - row - 1],
        &behind[apart - row - 1],
        gain,
        first,
        top,
        &mut front[row],
    );
}

// Writes for each of these numbers of units the greater one of the number of a row, and of the value
// with that of another where so many units fewer are left.
#[inline(always)]
fn put_most_within(
    later: &[u32; UNITS],
    apart: &[u32; UNITS],
    gain: Gain,
    first: usize,
    top: usize,
    most: &mut [u32; UNITS],
)
    requires top { top < 64 }
    requires small { (units : ℕ) → units ≤ top → slice_index apart.now units ≤ 525080008 }
    ensures dear { (units : ℕ) → first ≤ units → units ≤ top → units < gain.cost
        → slice_index most.new units ≡ slice_index later.now units }
    ensures more { (units : ℕ) → first ≤ units → units ≤ top → gain.cost ≤ units
        → slice_index most.new units
        ≡ max (slice_index later.now units)
        (slice_index apart.now (units - gain.cost) + gain.value) }
{
    let end = top + 1;
    'dear: for units in first..gain.cost.min(end) {
        most[units] = later[units];
    }
    'more: for units in first.max(gain.cost)..end {
        most[units] = later[units].max(apart[units - gain.cost] + gain.value);
    }
}
