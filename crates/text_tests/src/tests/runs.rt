// Markets that workers run.
use crate::tests::desks::{Said, market_desk, market_said, two_students};
use crate::tests::summaries::TWO_STUDENTS;
use market_edge::OpenGate;
use market_run::{made_summary, published_text};
use market_units::MAX_WORKERS;
use published_market::PublishEnd;
use std::alloc::Global;
use std::process::Abort;
use std::sync::Wait;
use std::test::Fail;
use std::thread::Threads;
use worked_terms::{ACCEPT_8, ACCEPT_9, FOUR_FIRST_TWO, FOUR_LAST_TWO, FOUR_MARKET};

// What these workers publish after the desk's journal, or the least error.
fn text_by<R: Abort + Threads + Wait + Sync>(
    rt: &R,
    alloc: Global,
    workers: u16,
    market: &Said,
) -> Result<Vec<u8>, u64> {
    assert!(rt; 1 <= workers && workers <= MAX_WORKERS);
    let heard = market_desk(rt, market);
    match published_text(rt, alloc, workers, &heard, &OpenGate) {
        Ok(text) => Ok(text),
        Err(PublishEnd::NoPrices { least }) => Err(least),
        Err(PublishEnd::NoMemory) => panic!(rt; "memory"),
    }
}

// What these workers publish of the market of four students of one seat, two in each of two
// sessions, or the least error.
fn four_by<R: Abort + Threads + Wait + Sync>(
    rt: &R,
    alloc: Global,
    workers: u16,
    settings: &[u8],
) -> Result<Vec<u8>, u64> {
    let texts = (FOUR_MARKET.term.catalogue, FOUR_MARKET.term.roll, settings);
    let market = market_said(rt, alloc, texts, (2, FOUR_LAST_TWO), (1, FOUR_FIRST_TWO));
    text_by(rt, alloc, workers, &market)
}

// The summary of what these workers publish of the made market of two students.
fn two_by<R: Abort + Threads + Wait + Sync>(rt: &R, alloc: Global, workers: u16) -> Vec<u8> {
    assert!(rt; 1 <= workers && workers <= MAX_WORKERS);
    let market = two_students(rt, alloc);
    let heard = market_desk(rt, &market);
    made_summary(rt, alloc, workers, &heard, &OpenGate).expect(rt, "prices")
}

#[test]
fn four_students_of_one_seat_in_two_sessions(rt: HostRuntime) -> Result<(), Fail> {
    let text = FOUR_MARKET.term.text;
    let wanted = text.replace(rt.alloc(), "order 1 1 1 1", "order 2 2 1 1")?;
    for workers in [1, 3] {
        let told = four_by(&rt, rt.alloc(), workers, ACCEPT_9).expect(&rt, "prices");
        assert_eq!(rt; told.as_slice(), wanted.as_bytes(), "{workers} workers");
    }
    Ok(())
}

#[test]
fn an_error_that_is_not_accepted(rt: HostRuntime) -> Result<(), Fail> {
    let text = four_by(&rt, rt.alloc(), 2, ACCEPT_8);
    assert!(rt; matches!(&text, Err(9)));
    Ok(())
}

#[test]
fn two_students_and_two_sections(rt: HostRuntime) {
    for workers in [1, 2] {
        let told = two_by(&rt, rt.alloc(), workers);
        assert_eq!(rt; told.as_slice(), TWO_STUDENTS, "{workers} workers");
    }
}
