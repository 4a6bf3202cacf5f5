// A term, the reasons for which its students do not have sections, and a forged text.
ghost use Rattle.std.specs.Prelude.{◌≤◌};

use crate::tests::tables::{settings_of, streams_of, tables_of};
use certificate_checker::{CheckEnd, Finding};
use explain_desk::published_reason;
use market_certificate::LineFault;
use market_units::{SectionNo, StudentNo};
use published_parts::Market;
use std::alloc::Global;
use std::process::Abort;
use std::test::Fail;
use worked_terms::TIGHT_MARKET;

// What is told of the student and the section by this text.
fn told<R: Abort>(
    rt: &R,
    alloc: Global,
    text: &[u8],
    student: u16,
    section: u16,
) -> Result<Vec<u8>, CheckEnd> {
    let market = TIGHT_MARKET;
    assert!(rt; text.len() < 1000);
    let (catalog, roll) = tables_of(rt, alloc, market.term.catalogue, market.term.roll);
    let settings = settings_of(rt, alloc, market.settings);
    let streams = streams_of(rt, alloc, market.session);
    let text = text.to_vec(alloc).expect(rt, "memory");
    assert!(rt; student < roll.len());
    assert!(rt; section < catalog.len());
    let said = Market {
        catalog: &catalog,
        roll: &roll,
        settings: &settings,
    };
    let student = StudentNo(student);
    published_reason(alloc, &said, &streams, text, student, SectionNo(section))
}

#[test]
fn reasons_of_a_published_text(rt: HostRuntime) {
    let cases: [(u16, u16, &[u8]); 4] = [
        (0, 0, b"ann A held\n"),
        (
            0,
            1,
            b"ann B beside credits\nbest [B] 40\nlost 10\ntree +x!-*\n",
        ),
        (0, 2, b"ann C alone credits\n"),
        (1, 1, b"bob B alone courses\n"),
    ];
    let published = TIGHT_MARKET.term.text.as_bytes();
    for (student, section, text) in cases {
        let told = told(&rt, rt.alloc(), published, student, section);
        let told = told.expect(&rt, "an accepted text");
        assert!(rt; told.as_slice() == text);
    }
}

#[test]
fn no_reason_of_a_text_that_is_not_accepted(rt: HostRuntime) -> Result<(), Fail> {
    let alloc = rt.alloc();
    let finding = Finding::Text {
        line: 6,
        kind: LineFault::Form,
    };
    let mut forged = TIGHT_MARKET.term.text.as_bytes().to_vec(alloc)?;
    assert!(rt; forged.len() > 78);
    forged[65] = b'x';
    match told(&rt, alloc, &forged, 0, 0) {
        Err(CheckEnd::Found(found)) => assert_eq!(rt; found, finding),
        _ => assert!(rt; false),
    }
    Ok(())
}
