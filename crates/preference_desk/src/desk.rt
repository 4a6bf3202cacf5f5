// The desk and its journal.
ghost use Rattle.std.specs.Prelude.{◌≡◌, ◌≤◌, length};
ghost use Rattle.std.specs.Vec.{vec_len, vec_capacity};
ghost use Rattle.preference_desk.specs.DeskStep.{state_in};
ghost use Rattle.preference_desk.specs.Histories.{IsHistory, IsHistory-prop};
ghost use Rattle.preference_desk.specs.{NamesView.names_in, PreferencesView.preferences_of};

use crate::names::Names;
use crate::preferences::Preferences;
use crate::steps::carry_out;
use crate::{Entry, Reply};
use course_catalog::Catalog;
use market_units::NoMemory;
use std::alloc::Global;
use student_roll::Roll;
use utility_language::Command;

/// The desk: what the students want, whether a session has closed it, and the journal of all
/// commands and replies. All memory that it will need was taken when it was prepared.
#[derive(Drop)]
pub struct Desk {
    names: Names,
    preferences: Preferences,
    closed: bool,
    journal: Vec<Entry>,
    lines: u32,
    ghost rows: { length (preferences_of preferences) ≡ length (names_in names).students },
    ghost told: { IsHistory (names_in names) (state_in (preferences_of preferences) closed) journal.items } by { IsHistory-prop (names_in names) (state_in (preferences_of preferences) closed) journal.items },
    ghost taken: { vec_len journal ≤ lines },
    ghost reserved: { lines ≤ vec_capacity journal },
}

impl Desk {
    ghost use Rattle.std.specs.Prelude.{◌+◌, ◌++◌, ◌∷◌, [], All, IfOk};
    ghost use Rattle.preference_desk.specs.DeskStep.{reply_to, state_after};
    ghost use Rattle.preference_desk.specs.DeskView.{names_of, state_of, entries_of, commands_left};
    ghost use Rattle.preference_desk.specs.Entries.{entry_of};
    ghost use Rattle.preference_desk.specs.Journals.{IsLegalJournal, closed_preferences, opening};
    ghost use Rattle.preference_desk.specs.MarketNames.{market_names};
    ghost use Rattle.preference_desk.specs.StudentPreferences.{SectionsBelow};

    /// A desk for the sections of the catalogue and the students of the roll, with room for so many
    /// commands: nobody wants anything yet, it is not closed, and its journal is empty.
    pub fn prepare(
        alloc: Global,
        catalog: &Catalog,
        roll: &Roll,
        lines: u32,
    ) -> Result<Desk, NoMemory>
        ensures names { IfOk result
            (λ desk. names_of desk ≡ market_names catalog.now.sections roll.now.students) }
        ensures state { IfOk result
            (λ desk. state_of desk
            ≡ opening (market_names catalog.now.sections roll.now.students)) }
        ensures entries { IfOk result (λ desk. entries_of desk ≡ []) }
        ensures room { IfOk result (λ desk. commands_left desk ≡ lines) }
    {
        Ok(Desk {
            names: Names::copy(alloc, catalog, roll)?,
            preferences: Preferences::new(alloc, roll.len())?,
            closed: false,
            journal: Vec::with_capacity(alloc, lines as usize)?,
            lines,
        })
    }

    /// How many commands can still be posted.
    pub fn room(&self) -> u32
        ensures { result ≡ commands_left self.now }
    {
        self.lines - self.journal.len() as u32
    }

    /// Takes the session's command: replies to it, carries it out where the reply is `Done`, and
    /// enters it into the journal.
    pub fn post(&mut self, session: u16, command: Command) -> Reply
        requires { 1 ≤ commands_left self.old }
        ensures reply { result ≡ reply_to (names_of self.old) (state_of self.old) command }
        ensures state { state_of self.new
            ≡ state_after (names_of self.old) (state_of self.old) command }
        ensures names { names_of self.new ≡ names_of self.old }
        ensures entries { entries_of self.new
            ≡ entries_of self.old ++ entry_of session command result ∷ [] }
        ensures room { commands_left self.new + 1 ≡ commands_left self.old }
    {
        let reply = carry_out(
            &self.names,
            &mut self.preferences,
            &mut self.closed,
            command,
        );
        self.journal.push_reserved(Entry {
            session,
            command,
            reply,
        });
        reply
    }

    /// What the students want after all entries of the journal.
    pub fn closed(&self) -> &Preferences
        ensures state { preferences_of result.now ≡ (state_of self.now).preferences }
        ensures after { preferences_of result.now
            ≡ closed_preferences (names_of self.now) (entries_of self.now) }
        ensures rows { length (preferences_of result.now) ≡ length (names_of self.now).students }
        ensures sections { All (SectionsBelow (length (names_of self.now).sections))
            (preferences_of result.now) }
    {
        &self.preferences
    }

    /// All entries, in the order in which the commands were posted.
    pub fn journal(&self) -> &[Entry]
        ensures entries { result.now ≡ entries_of self.now }
        ensures legal { IsLegalJournal (names_of self.now) result.now }
    {
        &self.journal
    }
}
