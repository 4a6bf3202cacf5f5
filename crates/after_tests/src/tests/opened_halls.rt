// Published texts with which a hall opens, and others.
use crate::tests::halls::stream_of;
use crate::tests::tables::tables_of;
use certificate_checker::{CheckEnd, Finding};
use dropadd_hall::published_hall;
use market_certificate::LineFault;
use market_edge::{Gate, OpenGate};
use market_units::SectionNo;
use std::alloc::Global;
use std::process::Abort;
use std::sync::Wait;
use std::thread::Threads;
use worked_terms::DROPPED_SEAT_HALL;

// How the term's text ends.
const END: &[u8] = b"final u [X]\nfinal v []\nused X 1 1\nend\n";

// The text of two students and the one seat, which ends so.
fn text_of<R: Abort>(rt: &R, alloc: Global, end: &[u8]) -> Vec<u8> {
    let whole = DROPPED_SEAT_HALL.term.text.as_bytes();
    let front = whole.strip_suffix(END).expect(rt, "an end");
    let mut text = front.to_vec(alloc).expect(rt, "memory");
    text.extend_from_slice(end).expect(rt, "memory");
    text
}

/// What is told of the four requests of one session where a hall opens with this text of the two
/// students.
pub(crate) fn hall_of<R: Abort + Threads + Wait + Sync, G: Gate + Sync>(
    rt: &R,
    alloc: Global,
    text: &[u8],
    gate: &G,
) -> Result<Vec<u8>, CheckEnd> {
    assert!(rt; text.len() < 10_000);
    let term = DROPPED_SEAT_HALL.term;
    let (catalog, roll) = tables_of(rt, alloc, term.catalogue, term.roll);
    let requests = stream_of(rt, alloc, DROPPED_SEAT_HALL.requests);
    published_hall(rt, alloc, &catalog, &roll, text, &[requests], gate)
}

// What is found where the text ends so.
fn found<R: Abort + Threads + Wait + Sync>(rt: &R, alloc: Global, end: &[u8]) -> Option<Finding> {
    match hall_of(rt, alloc, &text_of(rt, alloc, end), &OpenGate) {
        Err(CheckEnd::Found(finding)) => Some(finding),
        _ => None,
    }
}

#[test]
fn a_dropped_seat_goes_to_the_first_who_waits(rt: HostRuntime) {
    let text = text_of(&rt, rt.alloc(), END);
    let hall = hall_of(&rt, rt.alloc(), &text, &OpenGate).expect(&rt, "a hall");
    assert!(rt; hall.as_slice() == DROPPED_SEAT_HALL.told.as_bytes());
}

#[test]
fn no_hall_opens(rt: HostRuntime) {
    let seats = Finding::Seats {
        section: SectionNo(0),
        used: 2,
        seats: 1,
    };
    let missing = Finding::Text {
        line: 17,
        kind: LineFault::Missing,
    };
    let cases: [(&[u8], Finding); 2] = [
        (b"final u [X]\nfinal v [X]\nused X 1 1\nend\n", seats),
        (b"final u [X]\nfinal v []\nused X 1 1\nend", missing),
    ];
    for (end, finding) in cases {
        assert!(rt; found(&rt, rt.alloc(), end) == Some(finding));
    }
}
