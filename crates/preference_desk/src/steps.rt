// What a command does where the desk is not closed.
ghost use Rattle.std.specs.Prelude.{◌≡◌, length};
ghost use Rattle.utility_language.specs.declared.commands.Command.TheVariants as command;
ghost use Rattle.preference_desk.specs.DeskStep.{open_state, state_in, reply_to, state_after};
ghost use Rattle.preference_desk.specs.{NamesView.names_in, PreferencesView.preferences_of};

use crate::Reply;
use crate::names::Names;
use crate::preferences::Preferences;
use crate::rating::Rating;
use crate::two_sections::TwoSections;
use market_units::{MAX_ADJUSTMENT, MAX_RATING, Name, SectionNo};
use utility_language::Command;

/// The reply to a student who rates a section. The rating is set where the reply is `Done`, and
/// else nothing changes.
pub(crate) fn rate(
    names: &Names,
    preferences: &mut Preferences,
    student: &Name,
    section: &Name,
    n: i32,
) -> Reply
    requires { length (preferences_of preferences.old) ≡ length (names_in names.now).students }
    ensures reply { result
        ≡ reply_to (names_in names.now) (open_state (preferences_of preferences.old))
        (command.Rate student.now section.now n) }
    ensures state { open_state (preferences_of preferences.new)
        ≡ state_after (names_in names.now) (open_state (preferences_of preferences.old))
        (command.Rate student.now section.now n) }
{
    let Some(student) = names.student(student) else {
        return Reply::NoStudent;
    };
    let Some(section) = names.section(section) else {
        return Reply::NoSection;
    };
    if n < 0 || n > i32::from(MAX_RATING) {
        return Reply::OutOfRange;
    }
    let rating = Rating { n: n as u8 };
    if preferences.rate(student, section, rating) {
        Reply::Done
    } else {
        Reply::TooMany
    }
}

/// The reply to a student who adjusts a pair of sections. The adjustment is set where the reply is
/// `Done`, and else nothing changes.
pub(crate) fn pair(
    names: &Names,
    preferences: &mut Preferences,
    student: &Name,
    first: &Name,
    second: &Name,
    n: i32,
) -> Reply
    requires { length (preferences_of preferences.old) ≡ length (names_in names.now).students }
    ensures reply { result
        ≡ reply_to (names_in names.now) (open_state (preferences_of preferences.old))
        (command.Pair student.now first.now second.now n) }
    ensures state { open_state (preferences_of preferences.new)
        ≡ state_after (names_in names.now) (open_state (preferences_of preferences.old))
        (command.Pair student.now first.now second.now n) }
{
    let Some(student) = names.student(student) else {
        return Reply::NoStudent;
    };
    let Some(one) = names.section(first) else {
        return Reply::NoSection;
    };
    let Some(other) = names.section(second) else {
        return Reply::NoSection;
    };
    if first == second {
        return Reply::SamePair;
    }
    if n.unsigned_abs() > u32::from(MAX_ADJUSTMENT.unsigned_abs()) {
        return Reply::OutOfRange;
    }
    let sections = TwoSections {
        lower: SectionNo(one.0.min(other.0)),
        higher: SectionNo(one.0.max(other.0)),
    };
    if preferences.pair(student, sections, n as i16) {
        Reply::Done
    } else {
        Reply::TooMany
    }
}

/// The reply to a student who takes all ratings and adjustments back: `NoStudent` where no student
/// has the name, else `Done`.
pub(crate) fn clear(names: &Names, preferences: &mut Preferences, student: &Name) -> Reply
    requires { length (preferences_of preferences.old) ≡ length (names_in names.now).students }
    ensures reply { result
        ≡ reply_to (names_in names.now) (open_state (preferences_of preferences.old))
        (command.Clear student.now) }
    ensures state { open_state (preferences_of preferences.new)
        ≡ state_after (names_in names.now) (open_state (preferences_of preferences.old))
        (command.Clear student.now) }
{
    let Some(student) = names.student(student) else {
        return Reply::NoStudent;
    };
    preferences.clear(student);
    Reply::Done
}

/// Carries out a command at the desk, and gives the reply. Where the reply is not `Done`, nothing
/// changes.
pub(crate) fn carry_out(
    names: &Names,
    preferences: &mut Preferences,
    closed: &mut bool,
    command: Command,
) -> Reply
    requires { length (preferences_of preferences.old) ≡ length (names_in names.now).students }
    ensures reply { result
        ≡ reply_to (names_in names.now) (state_in (preferences_of preferences.old) closed.old)
        command }
    ensures state { state_in (preferences_of preferences.new) closed.new
        ≡ state_after (names_in names.now) (state_in (preferences_of preferences.old) closed.old)
        command }
{
    if command == Command::Unreadable {
        return Reply::Unreadable;
    }
    if *closed {
        return Reply::Closed;
    }
    match command {
        Command::Rate {
            student,
            section,
            n,
        } => rate(names, preferences, &student, &section, n),
        Command::Pair {
            student,
            first,
            second,
            n,
        } => pair(names, preferences, &student, &first, &second, n),
        Command::Clear { student } => clear(names, preferences, &student),
        Command::Close => {
            *closed = true;
            Reply::Done
        }
        Command::Unreadable => Reply::Unreadable,
    }
}
