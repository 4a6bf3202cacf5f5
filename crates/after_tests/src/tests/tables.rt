// What several modules read: tables, settings and sessions.
ghost use Rattle.std.specs.Prelude.{◌≤◌};

use course_catalog::{Catalog, read_catalog};
use market_settings::{Settings, read_settings};
use market_units::{MAX_RAISE, MAX_SPREAD};
use std::alloc::Global;
use std::process::Abort;
use student_roll::{Roll, read_roll};
use utility_language::{Command, read_stream};

/// The catalogue and the roll of a term.
pub(crate) fn tables_of<R: Abort>(
    rt: &R,
    alloc: Global,
    catalogue: &[u8],
    roll: &[u8],
) -> (Catalog, Roll) {
    (catalogue_of(rt, alloc, catalogue), roll_of(rt, alloc, roll))
}

fn catalogue_of<R: Abort>(rt: &R, alloc: Global, text: &[u8]) -> Catalog {
    assert!(rt; text.len() < 1000);
    read_catalog(alloc, text).expect(rt, "a catalogue")
}

fn roll_of<R: Abort>(rt: &R, alloc: Global, text: &[u8]) -> Roll {
    assert!(rt; text.len() < 1000);
    read_roll(alloc, text).expect(rt, "a roll")
}

/// The settings of a market, within their limits.
pub(crate) fn settings_of<R: Abort>(rt: &R, alloc: Global, text: &[u8]) -> Settings
    ensures { (result.spread ≤ MAX_SPREAD) × (result.raise ≤ MAX_RAISE) }
{
    let settings = read_settings(alloc, text).expect(rt, "settings");
    assert!(rt; settings.spread <= MAX_SPREAD && settings.raise <= MAX_RAISE);
    settings
}

/// One stream, that of this session.
pub(crate) fn streams_of<R: Abort>(rt: &R, alloc: Global, session: &[u8]) -> Vec<Vec<Command>> {
    let stream = read_stream(alloc, session, 100).expect(rt, "commands");
    let mut streams = Vec::new(alloc);
    streams.push(stream).expect(rt, "memory");
    streams
}
