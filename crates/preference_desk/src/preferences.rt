// What all students want.
use crate::pairs::Pairs;
use crate::rating::Rating;
use crate::ratings::Ratings;
use crate::two_sections::TwoSections;
use market_units::{MAX_ADJUSTMENT, NoMemory, SectionNo, StudentNo};
use std::alloc::Global;

/// What one student wants.
#[derive(Drop)]
pub(crate) struct Row {
    ratings: Ratings,
    pairs: Pairs,
}

impl Row {
    ghost use Rattle.std.specs.Prelude.{◌≡◌, IfOk};
    ghost use Rattle.preference_desk.specs.PreferencesView.{wanted_in};
    ghost use Rattle.preference_desk.specs.StudentPreferences.{no_preferences};

    fn new(alloc: Global) -> Result<Row, NoMemory>
        ensures { IfOk result (λ row. wanted_in row ≡ no_preferences) }
    {
        Ok(Row {
            ratings: Ratings::new(alloc)?,
            pairs: Pairs::new(alloc)?,
        })
    }

    fn clear(&mut self)
        ensures { wanted_in self.new ≡ no_preferences }
    {
        self.ratings.clear();
        self.pairs.clear();
    }
}

/// What the students of a roll want, student by student: ratings of sections and adjustments of
/// pairs of sections.
#[derive(Drop)]
pub struct Preferences {
    rows: Vec<Row>,
}

impl Preferences {
    ghost use Rattle.std.specs.Prelude.{◌≡◌, ◌==◌, ◌≤◌, ◌<◌, not, if◌then◌else◌, length, map, replicate, slice_set, unsigned_abs, IfOk};
    ghost use Rattle.std.specs.FinMap.{entries};
    ghost use Rattle.preference_desk.specs.DeskStep.{has_no_room_to_rate, has_no_room_to_pair};
    ghost use Rattle.preference_desk.specs.PreferencesView.{preferences_of, wanted_by};
    ghost use Rattle.preference_desk.specs.Rows.{AreRatings, ArePairs, rating_entry, pair_entry};
    ghost use Rattle.preference_desk.specs.StudentPreferences.{no_preferences, with_rating, with_pair};

    /// So many students, of whom none has rated or adjusted anything. All memory for what they may
    /// want is taken here, and the only error is that it was not given.
    pub(crate) fn new(alloc: Global, students: u16) -> Result<Preferences, NoMemory>
        ensures { IfOk result
            (λ preferences. preferences_of preferences ≡ replicate students no_preferences) }
    {
        let mut rows = Vec::with_capacity(alloc, usize::from(students))?;
        for _student in 0..students {
            rows.push(Row::new(alloc)?)?;
        }
        Ok(Preferences { rows })
    }

    /// How many students there are.
    pub fn len(&self) -> usize
        ensures { result ≡ length (preferences_of self.now) }
    {
        self.rows.len()
    }

    /// Whether there is no student.
    pub fn is_empty(&self) -> bool
        ensures { result ≡ (length (preferences_of self.now) == 0) }
    {
        self.rows.is_empty()
    }

    /// The sections that the student rates, in ascending order, with their ratings from 1 to 100;
    /// at most 60.
    pub fn ratings(&self, student: StudentNo) -> &[(SectionNo, u8)]
        requires { student.0 < length (preferences_of self.now) }
        ensures entries { map rating_entry result.now
            ≡ entries (wanted_by self.now student.0).ratings }
        ensures kept { AreRatings result.now }
    {
        &self.rows[usize::from(student.0)].ratings.items
    }

    /// The pairs that the student adjusts, the lower section first, in ascending order, with their
    /// adjustments from -200 to 200 and other than 0; at most 200.
    pub fn pairs(&self, student: StudentNo) -> &[(SectionNo, SectionNo, i16)]
        requires { student.0 < length (preferences_of self.now) }
        ensures entries { map pair_entry result.now ≡ entries (wanted_by self.now student.0).pairs }
        ensures kept { ArePairs result.now }
    {
        &self.rows[usize::from(student.0)].pairs.items
    }

    /// Sets a student's rating of a section, and 0 takes it back; `false`, and nothing changes,
    /// where the student has no room for one more.
    pub(crate) fn rate(&mut self, student: StudentNo, section: SectionNo, rating: Rating) -> bool
        requires student { student.0 < length (preferences_of self.old) }
        ensures room { result
            ≡ not (has_no_room_to_rate (wanted_by self.old student.0) section.0 rating.n) }
        ensures set { preferences_of self.new
            ≡ (if result
            then slice_set (preferences_of self.old) student.0 (record { ratings = with_rating (wanted_by self.old student.0).ratings section.0 rating.n; pairs = (wanted_by self.old student.0).pairs })
            else preferences_of self.old) }
    {
        let row = &mut self.rows[usize::from(student.0)];
        row.ratings.set(section, rating)
    }

    /// Sets a student's adjustment of a pair of sections, and 0 takes it back; `false`, and nothing
    /// changes, where the student has no room for one more.
    pub(crate) fn pair(&mut self, student: StudentNo, sections: TwoSections, n: i16) -> bool
        requires student { student.0 < length (preferences_of self.old) }
        requires small { unsigned_abs n ≤ unsigned_abs MAX_ADJUSTMENT }
        ensures room { result
            ≡ not
            (has_no_room_to_pair (wanted_by self.old student.0)
            (sections.lower.0, sections.higher.0) (unsigned_abs n)) }
        ensures set { preferences_of self.new
            ≡ (if result
            then slice_set (preferences_of self.old) student.0 (record { ratings = (wanted_by self.old student.0).ratings; pairs = with_pair (wanted_by self.old student.0).pairs (sections.lower.0, sections.higher.0) n })
            else preferences_of self.old) }
    {
        let row = &mut self.rows[usize::from(student.0)];
        row.pairs.set(sections, n)
    }

    /// Takes back all ratings and adjustments of a student.
    pub(crate) fn clear(&mut self, student: StudentNo)
        requires { student.0 < length (preferences_of self.old) }
        ensures { preferences_of self.new
            ≡ slice_set (preferences_of self.old) student.0 no_preferences }
    {
        let row = &mut self.rows[usize::from(student.0)];
        row.clear();
    }
}
