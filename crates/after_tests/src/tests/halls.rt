// The drop-add hall: requests read, made and told.
ghost use Rattle.std.specs.Prelude.{◌≤◌, length};
ghost use Rattle.dropadd_hall.specs.Streams.{request_count};

use crate::tests::desks::desk_of;
use crate::tests::tables::tables_of;
use chronicle::Step;
use dropadd_desk::{HallCommand, HallDesk};
use dropadd_hall::{ClosedHall, open_hall, put_hall, read_requests};
use market_edge::{Gate, MeetingGate, OpenGate};
use market_units::MAX_SESSIONS;
use std::alloc::Global;
use std::process::Abort;
use std::sync::Wait;
use std::test::Fail;
use std::thread::Threads;
use utility_language::StreamEnd;
use worked_terms::{
    EACH_REPLY_HALL, FIVE_SECTIONS_FIRST, FIVE_SECTIONS_HELD, FIVE_SECTIONS_SECOND,
    FIVE_SECTIONS_TERM, WAITING_HALL, WorkedHall, WorkedTerm,
};

// The replies to two sessions, a line each, which are the same in every order that keeps each
// session's own.
const REPLIES: [&str; 2] = [
    "Dropped { lapsed: 0, next: None }\nAdded\nAdded\nNoSection\n",
    "Added\nUnreadable\nAdded\n",
];

/// A hall, and its text.
#[derive(Drop)]
struct Told {
    hall: ClosedHall,
    text: Vec<u8>,
}

// The text of a hall that opens with this term, and in which these requests are made.
fn tell<R: Abort + Threads + Wait + Sync, G: Gate + Sync>(
    rt: &R,
    alloc: Global,
    term: &WorkedTerm,
    streams: &[Vec<HallCommand>],
    gate: &G,
) -> Result<Told, Fail>
    requires { request_count streams.now ≤ 200 }
{
    assert!(rt; 1 <= streams.len() && streams.len() <= usize::from(MAX_SESSIONS));
    let (catalog, roll) = tables_of(rt, alloc, term.catalogue, term.roll);
    let desk = desk_of(rt, alloc, &catalog, &roll, 200);
    let hall = open_hall(rt, alloc, desk, streams, gate)?;
    let text = put_hall(alloc, &catalog, &roll, &hall)?;
    Ok(Told { hall, text })
}

/// The requests of this text, at most 100; the test fails where they are not read.
pub(crate) fn stream_of(rt: &impl Abort, alloc: Global, text: &[u8]) -> Vec<HallCommand>
    ensures { length result.items ≤ 100 }
{
    let requests = read_requests(alloc, text, 100).expect(rt, "a stream");
    assert!(rt; requests.len() <= 100);
    requests
}

// What is requested at this seat, in order, and what is replied, a line each.
fn said_at(
    alloc: Global,
    steps: &[Step<HallDesk>],
    seat: u16,
) -> Result<(Vec<HallCommand>, String), Fail> {
    let mut requests = Vec::new(alloc);
    let mut replies = String::new(alloc);
    for step in steps {
        if step.seat == seat {
            let reply = format!(in alloc; "{:?}\n", step.reply)?;
            requests.push(step.request)?;
            replies.push_str(reply.as_str())?;
        }
    }
    Ok((requests, replies))
}

// The text of the hall where its one session makes the requests of this text.
fn try_one<R: Abort + Threads + Wait + Sync>(
    rt: &R,
    alloc: Global,
    hall: &WorkedHall,
    text: &[u8],
) -> Result<(), Fail> {
    let requests = stream_of(rt, alloc, text);
    let told = tell(rt, alloc, &hall.term, &[requests], &OpenGate)?;
    assert!(rt; told.text.as_slice() == hall.told.as_bytes());
    Ok(())
}

#[test]
fn each_reply_is_told(rt: HostRuntime) -> Result<(), Fail> {
    try_one(&rt, rt.alloc(), &EACH_REPLY_HALL, EACH_REPLY_HALL.requests)
}

#[test]
fn a_waiting_list_is_told(rt: HostRuntime) -> Result<(), Fail> {
    let text = b"# w behind v\n\nadd v A\r\n\tadd  w A ";
    try_one(&rt, rt.alloc(), &WAITING_HALL, text)
}

#[test]
fn no_room_for_a_request(rt: HostRuntime) {
    assert!(rt; read_requests(rt.alloc(), b"add v A\n#\nadd w A", 1) == Err(StreamEnd::TooMany));
}

// At this seat these requests were made, with these replies.
fn assert_said(
    rt: &impl Abort,
    alloc: Global,
    steps: &[Step<HallDesk>],
    seat: u16,
    stream: &[HallCommand],
    replies: &str,
) -> Result<(), Fail> {
    let (requests, told) = said_at(alloc, steps, seat)?;
    assert!(rt; requests.as_slice() == stream);
    assert_eq!(rt; told.as_str(), replies);
    Ok(())
}

// The stops of two sessions that met, one of three requests and one of four, and of nobody else.
fn try_gate(rt: &impl Abort, gate: &MeetingGate) {
    assert_eq!(rt; gate.first.counts(), (1, 4));
    assert_eq!(rt; gate.second.counts(), (1, 3));
    for nobody in [&gate.third, &gate.first_worker, &gate.second_worker] {
        assert_eq!(rt; nobody.counts(), (0, 0));
    }
    assert_eq!(rt; [gate.missed(), gate.others()], [0, 0]);
}

// Two sessions whose calls meet: neither can make all its requests before the other has made one.
#[test]
fn two_sessions_request_at_once(rt: HostRuntime) -> Result<(), Fail> {
    let alloc = rt.alloc();
    let gate = MeetingGate::new();
    let first = stream_of(&rt, alloc, FIVE_SECTIONS_FIRST);
    let second = stream_of(&rt, alloc, FIVE_SECTIONS_SECOND);
    let streams = [first, second];
    let told = tell(&rt, alloc, &FIVE_SECTIONS_TERM, &streams, &gate)?;
    let steps = told.hall.journal.steps();
    assert_eq!(rt; steps.len(), 7);
    assert_said(&rt, alloc, steps, 0, &streams[0], REPLIES[0])?;
    assert_said(&rt, alloc, steps, 1, &streams[1], REPLIES[1])?;
    assert!(rt; told.text.ends_with(FIVE_SECTIONS_HELD.as_bytes()));
    try_gate(&rt, &gate);
    Ok(())
}
