// What is noted of students who were asked at raised prices, and what of it serves at others.
ghost use Rattle.std.specs.Prelude.{◌≡◌, ◌<◌, ◌≤◌, ℕ, [], ◌∷◌, All, IfOk, IfSome, IsTrue, length};
ghost use Rattle.std.specs.Arc.{arc_value};
ghost use Rattle.bundle_rules.specs.{Bundles.sections_of, Demand.price_in};
ghost use Rattle.demand_workers.specs.Answering.{answer_to};
ghost use Rattle.demand_workers.specs.Notes.{AreNoted, IsNoted, price_among};
ghost use Rattle.price_board.specs.Tasks.{IsTask, taken_at};
ghost use Rattle.demand_workers.specs.Views.{crowd_of};

use crate::note::Note;
use crate::question::Question;
use crate::remembered::Remembered;
use crate::trial::{ROOM, raised_question};
use bundle_rules::{Bundle, Rated};
use market_units::{NoMemory, Tokens};
use price_board::Task;
use std::alloc::Global;
use std::sync::Arc;

// No place in a list.
const NOWHERE: usize = usize::MAX;

/// What is remembered of a crowd, and notes of its students, which hold whatever is remembered: of
/// each student the latest at most.
#[derive(Drop)]
pub(crate) struct Notes {
    pub remembered: Arc<Remembered>,
    /// How many best bundles are noted of a student that is asked, 1 to 8. A search for more takes
    /// longer, and where prices fall they bring nothing.
    pub kept: usize,
    list: Vec<Note>,
    // The place of each student's note.
    places: Vec<usize>,
    pub ghost noted: { AreNoted (crowd_of (arc_value remembered)) list.items },
    pub ghost some: { (1 ≤ kept) × (kept ≤ 8) },
}

impl Notes {
    /// What was noted earlier, with what is remembered now. It takes no memory.
    pub(crate) fn at(
        alloc: Global,
        earlier: Option<Notes>,
        remembered: Arc<Remembered>,
        kept: usize,
    ) -> Notes
        requires crowd { IfSome earlier
            (λ notes. crowd_of (arc_value notes.remembered) ≡ crowd_of (arc_value remembered)) }
        requires some { (1 ≤ kept) × (kept ≤ 8) }
        ensures { result.remembered ≡ remembered }
    {
        let Some(mut notes) = earlier else {
            return Notes {
                remembered,
                kept,
                list: Vec::new(alloc),
                places: Vec::new(alloc),
            };
        };
        notes.remembered = remembered;
        notes.kept = kept;
        notes
    }

    /// Notes what is told, in the place of what was noted of the student. The only error is that
    /// memory was not given.
    pub(crate) fn add(&mut self, note: Note) -> Result<(), NoMemory>
        requires { IsNoted (crowd_of (arc_value self.old.remembered)) note }
        ensures { self.new.remembered ≡ self.old.remembered }
    {
        let student = usize::from(note.student.0);
        let room = self.places.len().max(student + 1);
        self.places.resize(room, NOWHERE)?;
        let place = self.places[student];
        if place < self.list.len() {
            self.list[place] = note;
            return Ok(());
        }
        self.places[student] = self.list.len();
        self.list.push(note)?;
        Ok(())
    }

    /// What is noted of the student of an inquiry, where it surely takes that at its prices: the
    /// remembered ones, with a raised one.
    pub(crate) fn told_at(&self, inquiry: Task) -> Option<Bundle>
        requires { IsTask (crowd_of (arc_value self.now.remembered)) 1 inquiry }
        ensures { IfSome result
            (λ bundle. sections_of bundle
            ≡ taken_at (crowd_of (arc_value self.now.remembered))
            ((arc_value self.now.remembered).prices.items ∷ []) inquiry) }
    {
        let mut room = [Tokens(0); ROOM];
        let Some(question) = raised_question(&mut room, &self.remembered, inquiry) else {
            return None;
        };
        self.told(&question)
    }

    /// What is noted of the student, where it surely takes that at these prices.
    pub(crate) fn told(&self, question: &Question) -> Option<Bundle>
        requires { AreNoted (crowd_of question.now.remembered.now) self.now.list.items }
        ensures { IfSome result (λ bundle. sections_of bundle ≡ answer_to question.now) }
    {
        let place = match self.places.get(usize::from(question.student.0)) {
            Some(place) => *place,
            None => NOWHERE,
        };
        if place >= self.list.len() {
            return None;
        }
        served(question, &self.list[place])
    }
}

// What the student surely takes by the note: where the note is of this student and no section of
// the menu costs less than it did then, the first of the noted bundles that is affordable.
fn served(question: &Question, note: &Note) -> Option<Bundle>
    requires { IsNoted (crowd_of question.now.remembered.now) note.now }
    ensures { IfSome result (λ bundle. sections_of bundle ≡ answer_to question.now) }
{
    if note.student != question.student {
        return None;
    }
    let menu = question.menu();
    if !cost_enough(menu.places(), &note.prices, question.prices) {
        return None;
    }
    note.best
        .first_within(menu, question.prices, question.budget())
}

// Whether no section at these places costs less than among the noted prices.
fn cost_enough(places: &[Rated], noted: &[Tokens], prices: &[Tokens]) -> bool
    requires { All (λ rated. rated.section.0 < length prices.now) places.now }
    ensures { IsTrue result → (s : ℕ) → price_among places.now noted.now s ≤ price_in prices.now s }
{
    let [rated, more @ ..] = places else {
        return true;
    };
    let [price, others @ ..] = noted else {
        return true;
    };
    price.0 <= prices[usize::from(rated.section.0)].0 && cost_enough(more, others, prices)
}
