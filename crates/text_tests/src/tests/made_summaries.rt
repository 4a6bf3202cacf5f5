// Made markets that are run. The summaries are worked examples that were computed apart from this
// program.
use crate::tests::summaries::TWO_STUDENTS;
use made_run::{Numbers, made_summary};
use market_edge::OpenGate;
use published_market::PublishEnd;
use std::alloc::Global;
use std::process::Abort;
use std::sync::Wait;
use std::thread::Threads;

// What the market of these numbers is summed up by, or the least error, as these workers find it.
fn summary_by<R: Abort + Threads + Wait + Sync>(
    rt: &R,
    alloc: Global,
    workers: u16,
    (seed, students, sections, accept): (u64, u16, u16, u64),
) -> Result<Vec<u8>, u64> {
    assert!(rt; workers >= 1 && workers <= 16);
    assert!(rt; students >= 1 && students <= 2000);
    assert!(rt; sections >= 1 && sections <= 400);
    assert!(rt; accept <= 1_000_000_000_000);
    let numbers = Numbers {
        seed,
        students,
        sections,
        accept,
    };
    match made_summary(rt, alloc, workers, numbers, &OpenGate) {
        Ok(text) => Ok(text),
        Err(PublishEnd::NoPrices { least }) => Err(least),
        Err(PublishEnd::NoMemory) => panic!(rt; "memory"),
    }
}

// Workers, the numbers of a market, and its summary.
const SUMMARIES: [(u16, (u64, u16, u16, u64), &[u8]); 3] = [
    (1, (7, 2, 2, 0), TWO_STUDENTS),
    (2, (7, 2, 2, 0), TWO_STUDENTS),
    (2, (0, 1, 1, 0), ONE_STUDENT),
];

const ONE_STUDENT: &[u8] =
    b"students 1\nsections 1\ncommands 1\nerror 0\nturns 0\nrounds 0\npasses 1\nseats 1\nutility 54\nproof 6\n";

#[test]
fn summaries_of_made_markets(rt: HostRuntime) {
    for (workers, numbers, wanted) in SUMMARIES {
        let summary = summary_by(&rt, rt.alloc(), workers, numbers).expect(&rt, "prices");
        assert_eq!(rt; summary.as_slice(), wanted, "{workers} workers");
    }
    let unpriced = summary_by(&rt, rt.alloc(), 16, (7, 40, 15, 0));
    assert!(rt; matches!(&unpriced, Err(3)));
}
