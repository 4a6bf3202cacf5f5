// One student's ratings.
ghost use Rattle.std.specs.Prelude.{◌≡◌, ◌≤◌, ◌==◌, None, Some, not, nat_lt, ◌&&◌, nat_le, map, if◌then◌else◌, IfOk};
ghost use Rattle.std.specs.List.{position};
ghost use Rattle.std.specs.Ordering.{nat_cmp};
ghost use Rattle.std.specs.Vec.{vec_capacity};
ghost use Rattle.market_units.specs.declared.limits.TheConstants.{MAX_RATINGS};
ghost use Rattle.preference_desk.specs.Places.{place_in, stands};
ghost use Rattle.preference_desk.specs.Rows.{AreRatings, rating_entry};

use crate::rating::Rating;
use crate::rows;
use market_units::{MAX_RATINGS, NoMemory, SectionNo};
use std::alloc::Global;

/// The ratings of one student, section by section, in room that was taken once.
#[derive(Drop)]
pub(crate) struct Ratings {
    // Ascending by section.
    pub items: Vec<(SectionNo, u8)>,
    ghost kept: { AreRatings items.items },
    ghost room: { MAX_RATINGS ≤ vec_capacity items },
}

impl Ratings {
    ghost use Rattle.std.specs.FinMap.{empty, contains_key, len};
    ghost use Rattle.preference_desk.specs.{RatingsView.ratings_in, StudentPreferences.with_rating};

    /// No ratings, with room for as many as a student may give. The only error is that memory was
    /// not given.
    pub(crate) fn new(alloc: Global) -> Result<Ratings, NoMemory>
        ensures { IfOk result (λ ratings. ratings_in ratings ≡ empty) }
    {
        Ok(Ratings {
            items: Vec::with_capacity(alloc, MAX_RATINGS)?,
        })
    }

    /// The section's rating becomes this, and 0 takes it out; `false`, and nothing changes, where
    /// there is no room for one more.
    pub(crate) fn set(&mut self, section: SectionNo, rating: Rating) -> bool
        ensures room { result
            ≡ not
            (nat_lt 0 rating.n && not (contains_key (ratings_in self.old) section.0)
            && nat_le MAX_RATINGS (len (ratings_in self.old))) }
        ensures set { ratings_in self.new
            ≡ (if result then with_rating (ratings_in self.old) section.0 rating.n
            else ratings_in self.old) }
    {
        let place = place_of(&self.items, section);
        let stands = stands_at(&self.items, place, section);
        let entry = rated(section, rating.n);
        rows::write(&mut self.items, MAX_RATINGS, place, stands, entry)
    }

    /// Takes out all ratings; the room stays.
    pub(crate) fn clear(&mut self)
        ensures { ratings_in self.new ≡ empty }
    {
        self.items.clear();
    }
}

// The entry that a rating makes of its section; a rating of 0 makes none.
fn rated(section: SectionNo, rating: u8) -> Option<(SectionNo, u8)>
    ensures { result ≡ (if rating == 0 then None else Some (section, rating)) }
{
    if rating == 0 {
        return None;
    }
    Some((section, rating))
}

// The place of the section among those that are rated, or of the next one.
fn place_of(items: &[(SectionNo, u8)], section: SectionNo) -> usize
    ensures { result ≡ place_in nat_cmp section.0 (map rating_entry items.now) }
{
    match find_from(items, section) {
        Some(place) => place,
        None => items.len(),
    }
}

fn find_from(items: &[(SectionNo, u8)], section: SectionNo) -> Option<usize>
    ensures { result ≡ position (λ rated. nat_le section.0 rated.0.0) items.now }
{
    items.iter().position(|rated| section.0 <= rated.0.0)
}

fn stands_at(items: &[(SectionNo, u8)], place: usize, section: SectionNo) -> bool
    requires { place ≡ place_in nat_cmp section.0 (map rating_entry items.now) }
    ensures { result ≡ stands nat_cmp section.0 (map rating_entry items.now) }
{
    place < items.len() && items[place].0.0 == section.0
}
