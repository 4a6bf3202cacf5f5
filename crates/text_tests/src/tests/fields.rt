// The fields of printed lines, each written alone.
use crate::tests::readers::catalog_in;
use bundle_rules::Bundle;
use course_catalog::Catalog;
use market_certificate::{put_bundle_field, put_field, put_number_field, put_signed_field};
use market_units::SectionNo;
use std::alloc::Global;
use std::process::Abort;
use std::test::Fail;

const CATALOG: &[u8] =
    b"section,course,seats,credits,meetings\nA,AA,1,1,\nB-2,BB,1,1,\nC,CC,1,1,\n";

// A word and four numbers behind a text.
fn put_word_and_numbers(rt: &impl Abort, alloc: Global, text: &mut Vec<u8>) {
    put_field(text, b"word").expect(rt, "memory");
    for number in [0, u64::MAX] {
        put_number_field(text, number).expect(rt, "memory");
    }
    for number in [-200, 59] {
        put_signed_field(alloc, text, number).expect(rt, "memory");
    }
}

// Three bundles behind a text.
fn put_bundles(rt: &impl Abort, text: &mut Vec<u8>, catalog: &Catalog) {
    assert!(rt; catalog.len() == 3);
    for sections in [
        [].as_slice(),
        &[SectionNo(1)],
        &[SectionNo(0), SectionNo(2)],
    ] {
        let bundle = Bundle::of(sections).expect(rt, "ascending");
        put_bundle_field(text, catalog, &bundle).expect(rt, "memory");
    }
}

#[test]
fn fields_stand_behind_the_text(rt: HostRuntime) -> Result<(), Fail> {
    let alloc = rt.alloc();
    let catalog = catalog_in(&rt, alloc, CATALOG);
    let mut text = b"line".to_vec(alloc)?;
    put_word_and_numbers(&rt, alloc, &mut text);
    put_bundles(&rt, &mut text, &catalog);
    assert_eq!(rt;
        text.as_slice(),
        b"line word 0 18446744073709551615 -200 59 [] [B-2] [A,C]".as_slice()
    );
    Ok(())
}
