// Rated sections at places, with their adjustments and clashes.
ghost use Rattle.std.specs.Prelude.{◌≡◌, ◌<◌, ◌≤◌, ◌*◌, ◌+◌, ◌≤ℤ◌, neg_ℤ, ℕ, [], Some, IsTrue, length, IfOk, All, slice_get};
ghost use Rattle.market_units.specs.declared.limits.TheConstants.{MAX_RATINGS};
ghost use Rattle.bundle_rules.specs.Kept.{IsTable};
ghost use Rattle.bundle_rules.specs.Menus.{adjustment_in, clash_in, place_in, IsRated, IsPair, ArePlaces, ArePairs, AreClashes, AreCaps, IsMenu};

use crate::Rated;
use market_units::{MAX_ADJUSTMENT, MAX_RATINGS, NoMemory, SectionNo};
use std::alloc::Global;
use std::marker::Model;

/// The most credits and the most sections that a student may take.
#[derive(Clone, Copy)]
pub(crate) struct Caps {
    pub(crate) credits: u16,
    pub(crate) courses: u8,
}

/// Rated sections, with the adjustments of pairs, the clashes and the two caps. The sections stand
/// at places, numbered from 0 by ascending ordinal. These are the rows of a menu, or the same in the
/// order in which a search tries them, where each section is named by its position.
#[derive(Drop)]
pub struct Rows {
    places: Vec<Rated>,
    pairs: Vec<(u8, u8, i16)>,
    // Bits past the last place do not count, though contracts see whole words.
    clashes: Vec<u64>,
    credits: u16,
    courses: u8,

    // The adjustment of each two places, row by row: one access finds what a search asks wherever
    // it takes a section. Contracts see the pairs alone.
    adjustments: Vec<i16>,
}

impl Model for Rows {
    ghost use Rattle.bundle_rules.specs.{Kept.IsKept, Kept.IsTable, Menus.MenuData};

    ghost Value = { MenuData };

    ghost view = { λ menu. record {
      places = menu.places.items;
      pairs = menu.pairs.items;
      clashes = menu.clashes.items;
      credits = menu.credits;
      courses = menu.courses;
    } };

    ghost invariant = { λ menu. IsKept (record {
      places = menu.places.items;
      pairs = menu.pairs.items;
      clashes = menu.clashes.items;
      credits = menu.credits;
      courses = menu.courses;
    }) menu.adjustments.items };
}

impl Rows {
    /// The rows of these places, pairs, clashes and caps, which are kept as they are.
    pub(crate) fn of(
        alloc: Global,
        places: Vec<Rated>,
        pairs: Vec<(u8, u8, i16)>,
        clashes: Vec<u64>,
        caps: Caps,
    ) -> Result<Rows, NoMemory>
        requires places { ArePlaces places.items }
        requires pairs { ArePairs (length places.items) pairs.items }
        requires clashes { AreClashes places.items clashes.items }
        requires caps { AreCaps caps.credits caps.courses }
        ensures { IfOk result
            (λ rows. rows
            ≡ record {
              places = places.items;
              pairs = pairs.items;
              clashes = clashes.items;
              credits = caps.credits;
              courses = caps.courses;
            }) }
    {
        let adjustments = adjustment_table(
            alloc,
            &Pairs {
                places: places.len(),
                list: &pairs,
            },
        )?;
        Ok(Rows {
            places,
            pairs,
            clashes,
            credits: caps.credits,
            courses: caps.courses,
            adjustments,
        })
    }

    /// Other rows that are equal to these, or that memory is wanting.
    pub(crate) fn copy(&self, alloc: Global) -> Result<Rows, NoMemory>
        ensures { IfOk result (λ rows. rows ≡ self.now) }
    {
        Ok(Rows {
            places: self.places.to_vec(alloc)?,
            pairs: self.pairs.to_vec(alloc)?,
            clashes: self.clashes.to_vec(alloc)?,
            credits: self.credits,
            courses: self.courses,
            adjustments: self.adjustments.to_vec(alloc)?,
        })
    }

    /// The adjustments of pairs.
    pub fn pairs(&self) -> &[(u8, u8, i16)]
        ensures { result.now ≡ self.now.pairs }
    {
        &self.pairs
    }

    /// The word of each place, whose bit q tells whether it clashes with place q.
    pub fn clashes(&self) -> &[u64]
        ensures { result.now ≡ self.now.clashes }
    {
        &self.clashes
    }

    /// The number of places.
    pub fn len(&self) -> u8
        ensures value { result ≡ length self.now.places }
        ensures menu { IsMenu self.now }
    {
        self.places.len() as u8
    }

    /// The rated sections, ascending: one for each place.
    pub fn places(&self) -> &[Rated]
        ensures value { result.now ≡ self.now.places }
        ensures menu { IsMenu self.now }
    {
        &self.places
    }

    /// The section at a place, with its course, rating and credits.
    pub fn rated(&self, place: u8) -> &Rated
        requires { place < length self.now.places }
        ensures value { slice_get self.now.places place ≡ Some result.now }
        ensures range { IsRated result.now }
    {
        &self.places[usize::from(place)]
    }

    /// The adjustment of the unordered pair of two places, 0 where it has none.
    pub fn adjustment(&self, a: u8, b: u8) -> i16
        requires first { a < length self.now.places }
        requires second { b < length self.now.places }
        ensures value { result ≡ adjustment_in self.now.pairs a b }
        ensures low { neg_ℤ MAX_ADJUSTMENT ≤ℤ result }
        ensures high { result ≤ℤ MAX_ADJUSTMENT }
    {
        self.adjustments[usize::from(a) * self.places.len() + usize::from(b)]
    }

    /// Whether the sections at two places clash.
    pub fn clash(&self, a: u8, b: u8) -> bool
        requires first { a < length self.now.places }
        requires second { b < length self.now.places }
        ensures { result ≡ clash_in self.now.clashes a b }
    {
        (self.clashes[usize::from(a)] >> b) & 1 == 1
    }

    /// The most credits that the student may take.
    pub fn credits(&self) -> u16
        ensures { result ≡ self.now.credits }
    {
        self.credits
    }

    /// The most sections that the student may take.
    pub fn courses(&self) -> u8
        ensures { result ≡ self.now.courses }
    {
        self.courses
    }

    /// The place of a section, or the number of places where it has none.
    pub fn place(&self, section: SectionNo) -> u8
        ensures value { result ≡ place_in self.now.places section.0 }
        ensures within { result ≤ length self.now.places }
    {
        place_among(&self.places, section) as u8
    }
}

/// The place of a section among these, or their number where it has none.
pub fn place_among(places: &[Rated], section: SectionNo) -> usize
    ensures value { result ≡ place_in places.now section.0 }
    ensures within { result ≤ length places.now }
{
    match places {
        [] => 0,
        [rated, more @ ..] => {
            if rated.section == section {
                0
            } else {
                place_among(more, section) + 1
            }
        }
    }
}

// Pairs of so many places, at most 60, with their adjustments.
#[derive(Clone, Copy)]
struct Pairs<'p> {
    places: usize,
    list: &'p [(u8, u8, i16)],
    ghost few: { places ≤ MAX_RATINGS },
    ghost each: { All (IsPair places) list.now },
}

// The adjustment of each two places, row by row.
fn adjustment_table(alloc: Global, pairs: &Pairs) -> Result<Vec<i16>, NoMemory>
    ensures { IfOk result
        (λ table. IsTable pairs.now.places pairs.now.list.now table.items) }
{
    let mut table = vec![in alloc; 0i16; pairs.places * pairs.places]?;
    fill(&mut table, pairs);
    Ok(table)
}

// Writes the adjustments of the pairs into a table of zeros, the last pair first.
fn fill(table: &mut [i16], pairs: &Pairs)
    requires size { length table.old ≡ pairs.now.places * pairs.now.places }
    requires zeros { IsTable pairs.now.places [] table.old }
    ensures { IsTable pairs.now.places pairs.now.list.now table.new }
{
    let places = pairs.places;
    match pairs.list {
        [] => {}
        [(a, b, by), more @ ..] => {
            fill(table, &Pairs { places, list: more });
            table[usize::from(*a) * places + usize::from(*b)] = *by;
            table[usize::from(*b) * places + usize::from(*a)] = *by;
        }
    }
}
