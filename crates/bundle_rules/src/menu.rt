// What one student may choose from.
ghost use Rattle.std.specs.Prelude.{◌≡◌, ◌<◌, ◌≤◌, ◌*◌, ◌+◌, ◌≤ℤ◌, neg_ℤ, ℕ, [], Some, IsTrue, length, IfOk, All, slice_get};
ghost use Rattle.bundle_rules.specs.Menus.{adjustment_in, clash_in, place_in, IsRated, IsPair, ArePlaces, ArePairs, AreClashes, AreCaps, IsMenu};

use crate::conditions::{are_clashes, are_pairs, are_places};
use crate::ranking::{Ordered, order_of, rows_in_order};
use crate::rows::Caps;
use crate::{Ranked, Rows};
use market_units::{MAX_ADJUSTMENT, MAX_COURSES, MAX_CREDITS, NoMemory, SectionNo};
use std::alloc::Global;
use std::marker::Model;

/// A section that the student rates.
#[derive(Clone, Copy, Debug, PartialEq, Eq)]
pub struct Rated {
    pub section: SectionNo,
    pub course: u16,
    pub rating: u8,
    pub credits: u16,
}

/// The sections that a student rates, with the adjustments of pairs, the clashes and the two caps.
/// The sections stand at places, numbered from 0 by ascending ordinal.
///
/// Beside them a menu keeps the same rows in the order in which a search tries the places. Nothing
/// that it says of itself depends on that order.
#[derive(Drop)]
pub struct Menu {
    rows: Rows,

    // The rows in the order of the search, each section named by its position there, and the place
    // of each position. Contracts see the rows alone.
    renamed: Rows,
    order: Vec<u8>,
}

impl Model for Menu {
    ghost use Rattle.bundle_rules.specs.{Menus.MenuData, Ranks.IsRenamed};

    ghost Value = { MenuData };

    ghost view = { λ menu. menu.rows };

    ghost invariant = { λ menu. IsRenamed menu.order.items menu.rows menu.renamed };
}

impl Menu {
    /// Whether `build` may be called with these.
    pub fn may_build(
        places: &[Rated],
        pairs: &[(u8, u8, i16)],
        clashes: &[u64],
        credits: u16,
        courses: u8,
    ) -> bool
        ensures places { IsTrue result → ArePlaces places.now }
        ensures pairs { IsTrue result → ArePairs (length places.now) pairs.now }
        ensures clashes { IsTrue result → AreClashes places.now clashes.now }
        ensures caps { IsTrue result → AreCaps credits courses }
        ensures all { ArePlaces places.now → ArePairs (length places.now) pairs.now
            → AreClashes places.now clashes.now → AreCaps credits courses → IsTrue result }
    {
        if !are_places(places) {
            return false;
        }
        if !are_pairs(places.len(), pairs) {
            return false;
        }
        if !are_clashes(places, clashes) {
            return false;
        }
        credits <= MAX_CREDITS && courses <= MAX_COURSES
    }

    /// The menu of these places, pairs, clashes and caps. Bit t of the word of a place tells
    /// whether it clashes with place t.
    pub fn build(
        alloc: Global,
        places: &[Rated],
        pairs: &[(u8, u8, i16)],
        clashes: &[u64],
        credits: u16,
        courses: u8,
    ) -> Result<Menu, NoMemory>
        requires places { ArePlaces places.now }
        requires pairs { ArePairs (length places.now) pairs.now }
        requires clashes { AreClashes places.now clashes.now }
        requires caps { AreCaps credits courses }
        ensures { IfOk result
            (λ menu. menu
            ≡ record {
              places = places.now;
              pairs = pairs.now;
              clashes = clashes.now;
              credits = credits;
              courses = courses;
            }) }
    {
        let caps = Caps { credits, courses };
        let rows = Rows::of(
            alloc,
            places.to_vec(alloc)?,
            pairs.to_vec(alloc)?,
            clashes.to_vec(alloc)?,
            caps,
        )?;
        let order = order_of(alloc, &rows)?;
        let ordered = Ordered {
            rows: &rows,
            order: &order,
        };
        let renamed = rows_in_order(alloc, &ordered)?;
        Ok(Menu {
            rows,
            renamed,
            order,
        })
    }

    /// Another menu that is equal to this one, or that memory is wanting.
    pub fn copy(&self, alloc: Global) -> Result<Menu, NoMemory>
        ensures { IfOk result (λ menu. menu ≡ self.now) }
    {
        Ok(Menu {
            rows: self.rows.copy(alloc)?,
            renamed: self.renamed.copy(alloc)?,
            order: self.order.to_vec(alloc)?,
        })
    }

    /// The rows of the menu.
    pub fn rows(&self) -> &Rows
        ensures { result.now ≡ self.now }
    {
        &self.rows
    }

    /// The rows of the menu in the order in which a search tries them.
    pub fn ranked(&self) -> Ranked<'_>
        ensures { result.menu.now ≡ self.now }
    {
        Ranked {
            menu: &self.rows,
            rows: &self.renamed,
            order: &self.order,
        }
    }

    /// The number of places.
    pub fn len(&self) -> u8
        ensures value { result ≡ length self.now.places }
        ensures menu { IsMenu self.now }
    {
        self.rows.len()
    }

    /// The rated sections, ascending: one for each place.
    pub fn places(&self) -> &[Rated]
        ensures value { result.now ≡ self.now.places }
        ensures menu { IsMenu self.now }
    {
        self.rows.places()
    }

    /// The section at a place, with its course, rating and credits.
    pub fn rated(&self, place: u8) -> &Rated
        requires { place < length self.now.places }
        ensures value { slice_get self.now.places place ≡ Some result.now }
        ensures range { IsRated result.now }
    {
        self.rows.rated(place)
    }

    /// The adjustment of the unordered pair of two places, 0 where it has none.
    pub fn adjustment(&self, a: u8, b: u8) -> i16
        requires first { a < length self.now.places }
        requires second { b < length self.now.places }
        ensures value { result ≡ adjustment_in self.now.pairs a b }
        ensures low { neg_ℤ MAX_ADJUSTMENT ≤ℤ result }
        ensures high { result ≤ℤ MAX_ADJUSTMENT }
    {
        self.rows.adjustment(a, b)
    }

    /// Whether the sections at two places clash.
    pub fn clash(&self, a: u8, b: u8) -> bool
        requires first { a < length self.now.places }
        requires second { b < length self.now.places }
        ensures { result ≡ clash_in self.now.clashes a b }
    {
        self.rows.clash(a, b)
    }

    /// The most credits that the student may take.
    pub fn credits(&self) -> u16
        ensures { result ≡ self.now.credits }
    {
        self.rows.credits()
    }

    /// The most sections that the student may take.
    pub fn courses(&self) -> u8
        ensures { result ≡ self.now.courses }
    {
        self.rows.courses()
    }

    /// The place of a section, or the number of places where it has none.
    pub fn place(&self, section: SectionNo) -> u8
        ensures value { result ≡ place_in self.now.places section.0 }
        ensures within { result ≤ length self.now.places }
    {
        self.rows.place(section)
    }
}
