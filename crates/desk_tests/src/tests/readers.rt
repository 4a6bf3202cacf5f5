// Catalogues and rolls, read from their texts.
use course_catalog::{Catalog, read_catalog};
use std::alloc::Global;
use std::process::Abort;
use student_roll::{Roll, read_roll};

/// The roll that this text is; the test ends where it is none.
pub fn roll_in(rt: &impl Abort, alloc: Global, text: &[u8]) -> Roll {
    assert!(rt; text.len() < 100_000);
    read_roll(alloc, text).expect(rt, "a roll")
}

/// The catalogue and the roll that these texts are; the test ends where one is none.
pub fn tables_in(rt: &impl Abort, alloc: Global, catalogue: &[u8], roll: &[u8]) -> (Catalog, Roll) {
    assert!(rt; catalogue.len() < 100_000);
    let catalog = read_catalog(alloc, catalogue).expect(rt, "a catalogue");
    (catalog, roll_in(rt, alloc, roll))
}
