// Sessions and workers that meet, and how often they pass the gate.
use super::*;
use market_edge::MeetingGate;
use worked_terms::{FIVE_SECTIONS_HELD, FOUR_ENVY};

// The text of a command over these files, past this gate. Its work is done.
pub(super) fn done_past<R: Threads + Wait + Sync + Abort>(
    rt: &R,
    alloc: Global,
    line: &str,
    files: &[File],
    gate: &(dyn Gate + Sync),
) -> Result<String, Fail> {
    let held = all_files(alloc, line, files)?;
    let (status, text) = run_held(rt, alloc, line, held, (0, 0), ROOM, gate)?;
    assert_eq!(rt; status, Status::Done, "{line}");
    Ok(text)
}

// The lines of the text that begin so.
fn lines_of(alloc: Global, text: &str, start: &str) -> Result<String, Fail> {
    let mut lines = String::new(alloc);
    for line in text.split_terminator('\n') {
        if line.strip_prefix(start).is_some() {
            lines.push_str(line)?;
            lines.push_str("\n")?;
        }
    }
    Ok(lines)
}

// The entries of two sessions, and no entry of a third one, which made no call.
fn assert_entries<R: Abort>(
    rt: &R,
    alloc: Global,
    text: &str,
    entries: &[&str; 2],
    end: &str,
) -> Result<(), Fail> {
    let first = lines_of(alloc, text, "entry 1 ")?;
    let second = lines_of(alloc, text, "entry 2 ")?;
    let third = lines_of(alloc, text, "entry 3 ")?;
    assert_eq!(rt; first.as_str(), entries[0]);
    assert_eq!(rt; second.as_str(), entries[1]);
    assert_eq!(rt; third.as_str(), "");
    assert!(rt; text.ends_with(end), "{text}");
    Ok(())
}

// The sessions started and made so many calls, and met; nothing else passed.
pub(super) fn assert_counts<R: Abort>(rt: &R, gate: &MeetingGate, counts: [(u64, u64); 3]) {
    let found = [
        gate.first.counts(),
        gate.second.counts(),
        gate.third.counts(),
    ];
    assert_eq!(rt; found, counts);
    assert_eq!(rt; (gate.missed(), gate.others()), (0, 0));
}

// The workers made a call each, and together at least so many.
pub(super) fn assert_workers_met<R: Abort>(rt: &R, gate: &MeetingGate, least: u64) {
    let (_, of_first) = gate.first_worker.counts();
    let (_, of_second) = gate.second_worker.counts();
    assert!(rt; of_first > 0 && of_second > 0);
    assert!(rt; of_first.saturating_add(of_second) >= least);
}

// The calls of three sessions, of which the first two met.
const CALLS_OF_SESSIONS: [(u64, u64); 3] = [(1, 4), (1, 3), (1, 0)];

// The first two of three sessions meet, and their entries are these.
fn try_sessions<R: Threads + Wait + Sync + Abort>(
    rt: &R,
    alloc: Global,
    line: &str,
    files: &[File],
    entries: &[&str; 2],
    end: &str,
) -> Result<(), Fail> {
    let gate = MeetingGate::new();
    let text = done_past(rt, alloc, line, files, &gate)?;
    assert_counts(rt, &gate, CALLS_OF_SESSIONS);
    assert_entries(rt, alloc, text.as_str(), entries, end)
}

// The calls of two sessions with two commands each.
const CALLS_OF_TWO: [(u64, u64); 3] = [(1, 2), (1, 2), (0, 0)];

const SESSIONS: [File<'static>; 3] = [
    (
        "S1",
        b"rate ann A 10\nrate zoe A 1\nrate ann A 30\nrate ann Q 1\n",
    ),
    (
        "S2",
        b"rate bob B 20\n# no command\nno command\npair bob B A -5\n",
    ),
    ("S3", b""),
];

const ENTRIES: [&str; 2] = [
    "entry 1 done rate ann A 10
entry 1 no-student rate zoe A 1
entry 1 done rate ann A 30
entry 1 no-section rate ann Q 1
",
    "entry 2 done rate bob B 20
entry 2 unreadable unreadable
entry 2 done pair bob B A -5
",
];

const CLOSED: &str = "rate ann A 30\nrate bob B 20\npair bob A B -5\n";

// Two sessions whose calls meet: neither can post all its commands before the other has posted one.
// A third session has no command.
#[test]
fn two_sessions_post_at_once(rt: HostRuntime) -> Result<(), Fail> {
    let line = "prefer TWO ANN+BOB S1 S2 S3";
    try_sessions(&rt, rt.alloc(), line, &SESSIONS, &ENTRIES, CLOSED)
}

const REPLIES: [&str; 2] = [
    "entry 1 drop u A: dropped 0
entry 1 add u D: added
entry 1 add u E: added
entry 1 add u Q: no-section
",
    "entry 2 add v B: added
entry 2 unreadable: unreadable
entry 2 add w C: added
",
];

// Two sessions of a hall whose calls meet: neither can make all its requests before the other has
// made one. A third session has no request.
#[test]
fn two_sessions_of_a_hall_request_at_once(rt: HostRuntime) -> Result<(), Fail> {
    let line = "hall five.cat five.stu five.text five.first five.second COMMENT";
    try_sessions(&rt, rt.alloc(), line, &[], &REPLIES, FIVE_SECTIONS_HELD)
}

// Two sessions meet, and two workers, who together made at least so many calls; each session passes
// the gate as often as it has commands.
fn try_workers<R: Threads + Wait + Sync + Abort>(
    rt: &R,
    alloc: Global,
    line: &str,
    calls: u64,
    answers: &str,
) -> Result<(), Fail> {
    let gate = MeetingGate::new();
    let answer = run_by(rt, alloc, line, (0, 0), ROOM, &gate)?;
    assert_told(rt, alloc, line, answers, &answer)?;
    assert_counts(rt, &gate, CALLS_OF_TWO);
    assert_workers_met(rt, &gate, calls);
    Ok(())
}

// Two workers whose calls meet: neither can post all tasks before the other has posted one. There
// is a task for each student.
#[test]
fn two_workers_post_at_once(rt: HostRuntime) -> Result<(), Fail> {
    let line = "demand 2 four.cat four.stu four.set X=102 FIRST-TWO LAST-TWO";
    try_workers(&rt, rt.alloc(), line, 4, "0 four.demand\n1 order any\n")
}

// In one run sessions meet and workers meet. There is a task for each of four students.
#[test]
fn sessions_and_workers_of_a_run_post_at_once(rt: HostRuntime) -> Result<(), Fail> {
    let line = "run 2 four.cat four.stu four.set FIRST-TWO LAST-TWO";
    try_workers(&rt, rt.alloc(), line, 4, "0 four.text\n2 order any\n")
}

// Two workers of an audit whose calls meet: neither can post all rows before the other has posted
// one. Both look for the rows of the second stage, and then for the final ones.
#[test]
fn two_workers_of_an_audit_post_at_once(rt: HostRuntime) -> Result<(), Fail> {
    let gate = MeetingGate::new();
    let line = "audit 2 four.cat four.stu four.set four.text four.s1";
    let text = done_past(&rt, rt.alloc(), line, &[], &gate)?;
    assert_eq!(rt; text.as_str(), FOUR_ENVY);
    assert_counts(&rt, &gate, [(0, 0); 3]);
    assert_rows_posted(&rt, &gate);
    Ok(())
}

fn assert_rows_posted<R: Abort>(rt: &R, gate: &MeetingGate) {
    let (first_starts, of_first) = gate.first_worker.counts();
    let (second_starts, of_second) = gate.second_worker.counts();
    assert_eq!(rt; (first_starts, second_starts), (2, 2));
    assert!(rt; of_first > 0 && of_second > 0);
    assert_eq!(rt; of_first.saturating_add(of_second), 8);
}
