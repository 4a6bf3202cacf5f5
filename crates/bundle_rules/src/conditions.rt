// What a menu may be built of.
ghost use Rattle.std.specs.Prelude.{◌≡◌, ◌≢◌, ◌↔◌, ◌<◌, ◌≤◌, IsTrue, All, length, map};
ghost use Rattle.market_units.specs.declared.limits.TheConstants.{MAX_RATINGS};
ghost use Rattle.bundle_rules.specs.Menus.{clash_in, IsRated, ArePlaces, IsPair, AreDifferent, ArePairs, ClashesWell, AreClashes};
ghost use Rattle.bundle_rules.specs.{Rows.RowIsSound, Sets.IsAscending};

use crate::Rated;
use market_units::{
    MAX_ADJUSTMENT, MAX_PAIRS, MAX_RATING, MAX_RATINGS, MAX_SECTION_CREDITS, MAX_SECTIONS,
};

/// Whether these may be a menu's places: at most 60, each section, rating and credits in range, and
/// the section numbers ascending.
pub(crate) fn are_places(places: &[Rated]) -> bool
    ensures { IsTrue result ↔ ArePlaces places.now }
{
    if places.len() > MAX_RATINGS {
        return false;
    }
    if !places.iter().all(is_rated) {
        return false;
    }
    are_ascending(places)
}

fn is_rated(rated: &Rated) -> bool
    ensures { IsTrue result ↔ IsRated rated.now }
{
    rated.section.0 < MAX_SECTIONS
        && rated.rating >= 1
        && rated.rating <= MAX_RATING
        && rated.credits <= MAX_SECTION_CREDITS
}

fn are_ascending(places: &[Rated]) -> bool
    ensures { IsTrue result ↔ IsAscending (map (λ rated. rated.section.0) places.now) }
{
    match places {
        [] => true,
        [first, more @ ..] => match more {
            [] => true,
            [second, ..] => first.section.0 < second.section.0 && are_ascending(more),
        },
    }
}

/// Whether these may be the adjustments of a menu with so many places: at most 200, each of two of
/// its places, the lower first, and from -200 to 200, and no two of them of the same pair.
pub(crate) fn are_pairs(places: usize, pairs: &[(u8, u8, i16)]) -> bool
    ensures { IsTrue result ↔ ArePairs places pairs.now }
{
    if pairs.len() > MAX_PAIRS {
        return false;
    }
    all_are_pairs(places, pairs) && are_different(pairs)
}

fn all_are_pairs(places: usize, pairs: &[(u8, u8, i16)]) -> bool
    ensures { IsTrue result ↔ All (IsPair places) pairs.now }
{
    pairs.iter().all(|pair| is_pair(places, *pair))
}

fn is_pair(places: usize, pair: (u8, u8, i16)) -> bool
    ensures { IsTrue result ↔ IsPair places pair }
{
    pair.0 < pair.1
        && usize::from(pair.1) < places
        && pair.2 >= -MAX_ADJUSTMENT
        && pair.2 <= MAX_ADJUSTMENT
}

fn are_different(pairs: &[(u8, u8, i16)]) -> bool
    ensures { IsTrue result ↔ AreDifferent pairs.now }
{
    match pairs {
        [] => true,
        [pair, more @ ..] => all_name_others(*pair, more) && are_different(more),
    }
}

fn all_name_others(pair: (u8, u8, i16), others: &[(u8, u8, i16)]) -> bool
    ensures { IsTrue result ↔ All (λ other. pair.0 ≡ other.0 → pair.1 ≢ other.1) others.now }
{
    others
        .iter()
        .all(|other| pair.0 != other.0 || pair.1 != other.1)
}

/// Whether these may be the clashes of a menu with these places: a word for each place, whose bits
/// tell the places that it clashes with. No place clashes with itself, any two places of one course
/// clash, and a clash goes both ways.
pub(crate) fn are_clashes(places: &[Rated], clashes: &[u64]) -> bool
    requires { length places.now ≤ MAX_RATINGS }
    ensures { IsTrue result ↔ AreClashes places.now clashes.now }
{
    if clashes.len() != places.len() {
        return false;
    }
    for place in 0..places.len() {
        let row = Row {
            places,
            clashes,
            place,
        };
        if !row_is_sound(&row) {
            return false;
        }
    }
    true
}

// One of at most 60 places, and for each of them the word of the places that it clashes with.
#[derive(Clone, Copy)]
struct Row<'r> {
    places: &'r [Rated],
    clashes: &'r [u64],
    place: usize,
    ghost few: { length places.now ≤ MAX_RATINGS },
    ghost words: { length clashes.now ≡ length places.now },
    ghost on_menu: { place < length places.now },
}

fn row_is_sound(row: &Row) -> bool
    ensures { IsTrue result ↔ RowIsSound row.now.places.now row.now.clashes.now row.now.place }
{
    for other in 0..row.places.len() {
        if !clashes_well(row, other) {
            return false;
        }
    }
    !has_bit(row.clashes, row.place, row.place)
}

fn clashes_well(row: &Row, other: usize) -> bool
    requires { other < length row.now.places.now }
    ensures { IsTrue result
        ↔ ClashesWell row.now.places.now row.now.clashes.now row.now.place other }
{
    let place = row.place;
    let clash = has_bit(row.clashes, place, other);
    if clash != has_bit(row.clashes, other, place) {
        return false;
    }
    if clash || place == other {
        return true;
    }
    row.places[place].course != row.places[other].course
}

fn has_bit(clashes: &[u64], a: usize, b: usize) -> bool
    requires first { a < length clashes.now }
    requires second { b < 64 }
    ensures { result ≡ clash_in clashes.now a b }
{
    (clashes[a] >> b) & 1 == 1
}
