// The text of journals and of the preferences after them.
ghost use Rattle.std.specs.Prelude.{◌≡◌, All};
ghost use Rattle.preference_desk.specs.DeskView.{entries_of, names_of};
ghost use Rattle.utility_language.specs.Commands.{HasShortNumber};
ghost use Rattle.preference_text.specs.Texts.{HasShortCommand};

use crate::tests::readers::tables_in;
use preference_desk::Desk;
use preference_text::preferences_text;
use std::alloc::Global;
use std::process::Abort;
use std::test::Fail;
use utility_language::{Command, read_line};
use worked_terms::{
    STAYING_SESSION, THREE_SECTIONS_CATALOGUE, TWO_STUDENTS_SESSION, WorkedSession,
};

const ROLL: &[u8] = b"student,budget,credits,courses\nann,100,10,1\nbob,100,10,1\n";

// Two sessions, and each reply but the one that there are too many.
const REPLIES: [(u16, &[u8]); 8] = [
    (1, b"rate zoe Q 101"),
    (64, b"rate ann Q 101"),
    (1, b"pair ann A A 999"),
    (1, b"rate ann A -1"),
    (64, b"rate ann A -0"),
    (64, b"rate ann A 20"),
    (1, b"close"),
    (64, b"clear ann"),
];

const REPLIES_TEXT: &[u8] = b"entry 1 no-student rate zoe Q 101
entry 64 no-section rate ann Q 101
entry 1 same-pair pair ann A A 999
entry 1 out-of-range rate ann A -1
entry 64 unreadable unreadable
entry 64 done rate ann A 20
entry 1 done close
entry 64 closed clear ann
rate ann A 20
";

// The command of a line.
fn command_of(line: &[u8]) -> Command
    ensures { HasShortNumber result }
{
    match read_line(line) {
        Some(command) => command,
        None => Command::Unreadable,
    }
}

// Posts each line's command in its session's name.
fn say_each(rt: &impl Abort, desk: &mut Desk, said: &[(u16, &[u8])])
    requires { All HasShortCommand (entries_of desk.old) }
    ensures names { names_of desk.new ≡ names_of desk.old }
    ensures short { All HasShortCommand (entries_of desk.new) }
{
    for (session, line) in said {
        let command = command_of(line);
        assert!(rt; desk.room() >= 1);
        desk.post(*session, command);
    }
}

// The lines of the first session.
fn lines_in<'a>(alloc: Global, said: &'a [u8]) -> Result<Vec<(u16, &'a [u8])>, Fail> {
    let mut lines = Vec::new(alloc);
    for line in said.split(|byte| *byte == b'\n') {
        if !line.is_empty() {
            lines.push((1, line))?;
        }
    }
    Ok(lines)
}

// The text after these lines is this one.
fn try_text(
    rt: &impl Abort,
    alloc: Global,
    said: &[(u16, &[u8])],
    text: &[u8],
) -> Result<(), Fail> {
    let (catalog, roll) = tables_in(rt, alloc, THREE_SECTIONS_CATALOGUE, ROLL);
    let mut desk = Desk::prepare(alloc, &catalog, &roll, 20)?;
    say_each(rt, &mut desk, said);
    let printed = preferences_text(alloc, &catalog, &roll, &desk)?;
    assert_eq!(rt; printed.as_slice(), text);
    Ok(())
}

// What is told after this session.
fn try_session(rt: &impl Abort, alloc: Global, session: &WorkedSession) -> Result<(), Fail> {
    let lines = lines_in(alloc, session.said)?;
    try_text(rt, alloc, &lines, session.told.as_bytes())
}

#[test]
fn preferences_student_by_student(rt: HostRuntime) -> Result<(), Fail> {
    try_session(&rt, rt.alloc(), &TWO_STUDENTS_SESSION)
}

#[test]
fn adjustments_stay_when_a_rating_goes(rt: HostRuntime) -> Result<(), Fail> {
    try_session(&rt, rt.alloc(), &STAYING_SESSION)
}

#[test]
fn replies_of_two_sessions(rt: HostRuntime) -> Result<(), Fail> {
    try_text(&rt, rt.alloc(), &REPLIES, REPLIES_TEXT)
}

#[test]
fn nothing_said(rt: HostRuntime) -> Result<(), Fail> {
    try_text(&rt, rt.alloc(), &[], b"")
}
