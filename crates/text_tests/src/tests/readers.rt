// What the texts of a worked term are read as.
ghost use Rattle.market_settings.specs.Settings.{AreInRange};

use course_catalog::{Catalog, read_catalog};
use market_settings::{Settings, read_settings};
use std::alloc::Global;
use std::process::Abort;
use student_roll::{Roll, read_roll};
use utility_language::{Command, read_stream};

/// The catalogue that this text is; the test fails where it is none.
pub fn catalog_in(rt: &impl Abort, alloc: Global, text: &[u8]) -> Catalog {
    assert!(rt; text.len() < 10_000);
    read_catalog(alloc, text).expect(rt, "a catalogue")
}

/// The catalogue and the roll that these texts are; the test fails where one is none.
pub fn tables_in(rt: &impl Abort, alloc: Global, catalogue: &[u8], roll: &[u8]) -> (Catalog, Roll) {
    assert!(rt; roll.len() < 10_000);
    let catalog = catalog_in(rt, alloc, catalogue);
    (catalog, read_roll(alloc, roll).expect(rt, "a roll"))
}

/// The settings that this text is; the test fails where it is none.
pub fn settings_in(rt: &impl Abort, alloc: Global, text: &[u8]) -> Settings
    ensures { AreInRange result }
{
    read_settings(alloc, text).expect(rt, "settings")
}

/// The commands of a session that says this, at most 100; the test fails where they are not read.
pub fn commands_in(rt: &impl Abort, alloc: Global, text: &[u8]) -> Vec<Command> {
    read_stream(alloc, text, 100).expect(rt, "commands")
}

/// The streams of one session that says this, at most 100 commands; the test fails where they are
/// not read.
pub fn streams_in(rt: &impl Abort, alloc: Global, text: &[u8]) -> Vec<Vec<Command>> {
    let mut streams = Vec::new(alloc);
    streams
        .push(commands_in(rt, alloc, text))
        .expect(rt, "memory");
    streams
}
