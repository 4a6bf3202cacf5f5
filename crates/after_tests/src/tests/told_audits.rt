// Audits of published texts, and of a forged one. The texts are those of a second implementation,
// for the same inputs.
use crate::tests::tables::{settings_of, streams_of, tables_of};
use certificate_checker::{CheckEnd, Finding};
use fairness_audit::published_audit;
use market_edge::{Gate, OpenGate};
use market_units::{MAX_WORKERS, SectionNo};
use published_parts::Market;
use std::alloc::Global;
use std::process::Abort;
use std::sync::Wait;
use std::test::Fail;
use std::thread::Threads;
use worked_terms::{
    BEYOND_ONE_ENVY, BEYOND_ONE_MARKET, EQUAL_ENVY, EQUAL_MARKET, LOWER_BASE_ENVY,
    LOWER_BASE_MARKET, WorkedMarket,
};

/// How an audit of the text by so many workers ends.
pub(crate) fn audited<R: Abort + Threads + Wait + Sync, G: Gate + Sync>(
    rt: &R,
    alloc: Global,
    market: &WorkedMarket,
    text: &[u8],
    workers: u16,
    gate: &G,
) -> Result<Vec<u8>, CheckEnd> {
    assert!(rt; 1 <= workers && workers <= MAX_WORKERS);
    assert!(rt; text.len() < 1000);
    let (catalog, roll) = tables_of(rt, alloc, market.term.catalogue, market.term.roll);
    let settings = settings_of(rt, alloc, market.settings);
    let streams = streams_of(rt, alloc, market.session);
    let text = text.to_vec(alloc).expect(rt, "memory");
    let said = Market {
        catalog: &catalog,
        roll: &roll,
        settings: &settings,
    };
    published_audit(rt, alloc, workers, &said, &streams, text, gate)
}

// Tries the audit with 1, 2 and 16 workers.
fn try_audit<R: Abort + Threads + Wait + Sync>(
    rt: &R,
    alloc: Global,
    market: &WorkedMarket,
    written: &[u8],
) {
    let text = market.term.text.as_bytes();
    for workers in [1, 2, 16] {
        let found = audited(rt, alloc, market, text, workers, &OpenGate);
        let found = found.expect(rt, "an accepted text");
        assert!(rt; found.as_slice() == written);
    }
}

#[test]
fn audits_of_published_texts(rt: HostRuntime) {
    let alloc = rt.alloc();
    try_audit(&rt, alloc, &EQUAL_MARKET, EQUAL_ENVY.as_bytes());
    try_audit(&rt, alloc, &LOWER_BASE_MARKET, LOWER_BASE_ENVY.as_bytes());
    try_audit(&rt, alloc, &BEYOND_ONE_MARKET, BEYOND_ONE_ENVY.as_bytes());
}

// A text that tells no used seat where there is one is not accepted, and not audited.
#[test]
fn no_audit_of_a_forged_text(rt: HostRuntime) -> Result<(), Fail> {
    let alloc = rt.alloc();
    let finding = Finding::Used {
        section: SectionNo(0),
    };
    let mut forged = EQUAL_MARKET.term.text.as_bytes().to_vec(alloc)?;
    assert!(rt; forged.len() == 213);
    forged[205] = b'0';
    match audited(&rt, alloc, &EQUAL_MARKET, &forged, 2, &OpenGate) {
        Err(CheckEnd::Found(found)) => assert_eq!(rt; found, finding),
        _ => assert!(rt; false),
    }
    Ok(())
}
