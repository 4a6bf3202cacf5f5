// Two sessions at one desk.
ghost use Rattle.std.specs.Prelude.{◌≤◌, length, IfOk};

use crate::tests::readers::tables_in;
use gates::HoldingGate;
use market_edge::{Gate, MeetingGate};
use market_units::{SectionNo, StudentNo};
use preference_desk::{Entry, Reply};
use session_hall::{ClosedDesk, hold};
use std::alloc::Global;
use std::process::Abort;
use std::sync::Wait;
use std::sync::atomic::{AtomicU64, Ordering};
use std::test::Fail;
use std::thread::Threads;
use utility_language::{Command, read_line};

mod gates;

const CATALOG: &[u8] = b"section,course,seats,credits,meetings\nA,AA,1,1,\nB,BB,1,1,\n";

const ROLL: &[u8] = b"student,budget,credits,courses\nann,100,10,2\nbob,101,10,2\n";

// The lines of two sessions with their replies, which are the same in every order that keeps each
// session's own.
const FIRST: [(&[u8], Reply); 4] = [
    (b"rate ann A 10", Reply::Done),
    (b"rate zoe A 1", Reply::NoStudent),
    (b"rate ann A 30", Reply::Done),
    (b"rate ann Q 1", Reply::NoSection),
];

const SECOND: [(&[u8], Reply); 3] = [
    (b"rate bob B 20", Reply::Done),
    (b"no command", Reply::Unreadable),
    (b"pair bob B A -5", Reply::Done),
];

fn stream_of(alloc: Global, lines: &[(&[u8], Reply)]) -> Result<Vec<Command>, Fail>
    ensures { IfOk result (λ commands. length commands.items ≤ 100) }
{
    let mut commands = Vec::new(alloc);
    for (line, _) in lines {
        commands.push(read_line(line).unwrap_or(Command::Unreadable))?;
    }
    if commands.len() > 100 {
        return Err(Fail::new("a short stream"));
    }
    Ok(commands)
}

// What two sessions with these lines leave.
fn hold_two<R: Abort + Threads + Wait + Sync, G: Gate + Sync>(
    rt: &R,
    alloc: Global,
    first: &[(&[u8], Reply)],
    second: &[(&[u8], Reply)],
    gate: &G,
) -> Result<ClosedDesk, Fail> {
    let (catalog, roll) = tables_in(rt, alloc, CATALOG, ROLL);
    let first = stream_of(alloc, first)?;
    let second = stream_of(alloc, second)?;
    let streams = [first, second];
    Ok(hold(rt, alloc, &catalog, &roll, &streams, gate)?)
}

// Whether the entries of this session are these lines with their replies, in order.
fn is_posted(entries: &[Entry], session: u16, lines: &[(&[u8], Reply)]) -> bool {
    let mut at = 0usize;
    for entry in entries {
        if entry.session != session {
            continue;
        }
        let Some((line, reply)) = lines.get(at) else {
            return false;
        };
        if read_line(line) != Some(entry.command) || *reply != entry.reply {
            return false;
        }
        at = at.wrapping_add(1);
    }
    at == lines.len()
}

fn count_of(counter: &AtomicU64) -> u64 {
    counter.load(Ordering::SeqCst)
}

// The student rates one section, that of its own number.
fn assert_rating(rt: &impl Abort, closed: &ClosedDesk, number: u16, rating: u8) {
    let preferences = closed.desk.closed();
    assert!(rt; usize::from(number) < preferences.len());
    let ratings = preferences.ratings(StudentNo(number));
    assert!(rt; ratings == [(SectionNo(number), rating)].as_slice());
}

// The sessions met, the first at four calls and the second at three, and nobody else passed.
fn assert_counts(rt: &impl Abort, gate: &MeetingGate) {
    let sessions = [
        gate.first.counts(),
        gate.second.counts(),
        gate.third.counts(),
    ];
    assert_eq!(rt; sessions, [(1, 4), (1, 3), (0, 0)]);
    let workers = [gate.first_worker.counts(), gate.second_worker.counts()];
    assert_eq!(rt; workers, [(0, 0), (0, 0)]);
    assert_eq!(rt; [gate.missed(), gate.others()], [0, 0]);
}

// Two sessions whose calls meet: neither can post all its lines before the other has posted one.
#[test]
fn two_sessions_post_at_once(rt: HostRuntime) -> Result<(), Fail> {
    let gate = MeetingGate::new();
    let closed = hold_two(&rt, rt.alloc(), &FIRST, &SECOND, &gate)?;
    let entries = closed.desk.journal();
    assert_eq!(rt; entries.len(), 7);
    assert!(rt; is_posted(entries, 1, &FIRST));
    assert!(rt; is_posted(entries, 2, &SECOND));
    assert_eq!(rt; closed.journal.steps().len(), 7);
    assert_rating(&rt, &closed, 0, 30);
    assert_rating(&rt, &closed, 1, 20);
    assert_counts(&rt, &gate);
    Ok(())
}

// The entries are the first two lines of the first session, and then those of the second.
fn assert_two_after_two(rt: &impl Abort, entries: &[Entry]) {
    let [one, two, three, four] = entries else {
        panic!(rt; "four entries")
    };
    let sessions = [one.session, two.session, three.session, four.session];
    assert!(rt; sessions == [1, 1, 2, 2]);
    assert!(rt; is_posted(entries, 1, &FIRST[..2]));
    assert!(rt; is_posted(entries, 2, &SECOND[..2]));
}

// Each session passes its gate after its reply: the first one's last pass lets the second begin,
// and the second one's last pass lets the first go on, so the first has posted both its lines
// before the second posts one.
#[test]
fn a_session_is_held_after_its_reply(rt: HostRuntime) -> Result<(), Fail> {
    let gate = HoldingGate::new();
    let closed = hold_two(&rt, rt.alloc(), &FIRST[..2], &SECOND[..2], &gate)?;
    assert_two_after_two(&rt, closed.desk.journal());
    let counts = [
        count_of(&gate.first_calls),
        count_of(&gate.second_calls),
        count_of(&gate.missed),
    ];
    assert_eq!(rt; counts, [2, 2, 0]);
    Ok(())
}
