// The texts of a made market, read. Each is of its grammar, so only memory can be wanted.
ghost use Rattle.std.specs.Prelude.{◌≡◌, ◌≤◌, ◌<◌, ◌+◌, ◌-◌, ◌^◌, [], ◌∷◌, Ok, Vec, IfOk, length, map};
ghost use Rattle.std.proofs.Common.{Global};
ghost use Rattle.std.specs.List.{AllZip};
ghost use Rattle.std.specs.Vec.{vec_len};
ghost use Rattle.course_catalog.specs.{Catalog.CatalogData, Reading.catalog_of};
ghost use Rattle.market_units.specs.Totals.{total};
ghost use Rattle.market_settings.specs.Settings.{AreInRange, settings_of};
ghost use Rattle.market_settings.specs.declared.reader.Settings.{Settings};
ghost use Rattle.student_roll.specs.{Rolls.roll_of, Students.RollData};
ghost use Rattle.utility_language.specs.Commands.{AreCommands, command_lines};
ghost use Rattle.utility_language.specs.declared.commands.Command.{Command};

use course_catalog::{Catalog, CatalogRefusal, read_catalog};
use market_settings::{Settings, SettingsRefusal, read_settings};
use market_units::{MAX_COMMANDS, NoMemory};
use std::alloc::Global;
use student_roll::{Roll, RollRefusal, read_roll};
use utility_language::{Command, StreamEnd, read_stream};

/// Reads a text that is known to be a catalogue. The only error is that memory was not given.
pub(crate) fn catalog_in(alloc: Global, text: &[u8]) -> Result<Catalog, NoMemory>
    requires grammar { (catalog : CatalogData) × (catalog_of text.now ≡ Ok catalog) }
    requires short { length text.now < 2 ^ 32 - 1 }
    ensures { IfOk result (λ catalog. catalog_of text.now ≡ Ok catalog) }
{
    match read_catalog(alloc, text) {
        Ok(catalog) => Ok(catalog),
        Err(CatalogRefusal::NoMemory) => Err(NoMemory),
        Err(_) => unreachable!(),
    }
}

/// Reads a text that is known to be a roll. The only error is that memory was not given.
pub(crate) fn roll_in(alloc: Global, text: &[u8]) -> Result<Roll, NoMemory>
    requires grammar { (roll : RollData) × (roll_of text.now ≡ Ok roll) }
    requires short { length text.now < 2 ^ 32 - 1 }
    ensures { IfOk result (λ roll. roll_of text.now ≡ Ok roll) }
{
    match read_roll(alloc, text) {
        Ok(roll) => Ok(roll),
        Err(RollRefusal::NoMemory) => Err(NoMemory),
        Err(_) => unreachable!(),
    }
}

/// Reads a text that is known to be settings. The only error is that memory was not given.
pub(crate) fn settings_in(alloc: Global, text: &[u8]) -> Result<Settings, NoMemory>
    requires grammar { (settings : Settings) × (settings_of text.now ≡ Ok settings) }
    ensures read { IfOk result (λ settings. settings_of text.now ≡ Ok settings) }
    ensures in_range { IfOk result AreInRange }
{
    match read_settings(alloc, text) {
        Ok(settings) => Ok(settings),
        Err(SettingsRefusal::NoMemory) => Err(NoMemory),
        Err(_) => unreachable!(),
    }
}

// The commands of the session, of which there is room for so many.
fn stream_in(alloc: Global, session: &[u8], room: u32) -> Result<Vec<Command>, NoMemory>
    requires { length (command_lines session.now) ≤ room }
    ensures commands { IfOk result (λ commands. AreCommands session.now commands.items) }
    ensures count { IfOk result
        (λ commands. length commands.items ≡ length (command_lines session.now)) }
{
    match read_stream(alloc, session, room) {
        Ok(commands) => Ok(commands),
        Err(StreamEnd::NoMemory) => Err(NoMemory),
        Err(StreamEnd::TooMany) => unreachable!(),
    }
}

/// The commands of both sessions, the first session's first. Together they have at most 200,000
/// lines of commands; the only error is that memory was not given.
pub(crate) fn streams_in(
    alloc: Global,
    first: &[u8],
    second: &[u8],
) -> Result<Vec<Vec<Command>>, NoMemory>
    requires { length (command_lines first.now) + length (command_lines second.now) ≤ MAX_COMMANDS }
    ensures commands { IfOk result
        (λ streams. AllZip AreCommands (first.now ∷ second.now ∷ [])
        (map (λ (stream : Vec Command Global). stream.items) streams.items)) }
    ensures few { IfOk result (λ streams. total vec_len streams.items ≤ MAX_COMMANDS) }
{
    let mut streams = Vec::with_capacity(alloc, 2)?;
    let first = stream_in(alloc, first, MAX_COMMANDS)?;
    let room = MAX_COMMANDS - first.len() as u32;
    streams.push(first)?;
    streams.push(stream_in(alloc, second, room)?)?;
    Ok(streams)
}
