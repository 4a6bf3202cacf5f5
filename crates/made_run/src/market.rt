// A made market as its texts say it.
ghost use Rattle.std.specs.Prelude.{◌≡◌, ◌≤◌, Vec, IfOk, map};
ghost use Rattle.std.proofs.Common.{Global};
ghost use Rattle.std.specs.List.{AllZip};
ghost use Rattle.std.specs.Vec.{vec_len};
ghost use Rattle.made_run.specs.{Settings.made_settings, Streams.session_texts};
ghost use Rattle.made_run.specs.Tables.{made_catalog, made_roll};
ghost use Rattle.market_units.specs.Totals.{total};
ghost use Rattle.market_settings.specs.Settings.{AreInRange};
ghost use Rattle.utility_language.specs.{Commands.AreCommands, declared.commands.Command.Command};

use crate::numbers::Numbers;
use crate::reading::{catalog_in, roll_in, settings_in, streams_in};
use course_catalog::Catalog;
use market_maker::make;
use market_settings::Settings;
use market_units::{MAX_COMMANDS, NoMemory};
use std::alloc::Global;
use student_roll::Roll;
use utility_language::Command;

/// A made market: what its texts say.
#[derive(Drop)]
pub struct MadeMarket {
    /// The catalogue, of version 1.
    pub catalog: Catalog,
    /// The roll, of version 1.
    pub roll: Roll,
    /// The settings.
    pub settings: Settings,
    /// What the first session says, and what the second.
    pub streams: Vec<Vec<Command>>,
}

/// The market of these numbers, as its texts are read. The sessions have at most 200,000 commands
/// together. `NoMemory` is the only error.
pub fn make_market(alloc: Global, numbers: Numbers) -> Result<MadeMarket, NoMemory>
    ensures catalog { IfOk result
        (λ made. made.catalog ≡ made_catalog numbers.students numbers.sections) }
    ensures roll { IfOk result (λ made. made.roll ≡ made_roll numbers.students) }
    ensures settings { IfOk result
        (λ made. made.settings ≡ made_settings numbers.seed numbers.accept) }
    ensures in_range { IfOk result (λ made. AreInRange made.settings) }
    ensures streams { IfOk result
        (λ made. AllZip AreCommands
        (session_texts numbers.seed numbers.students numbers.sections)
        (map (λ (stream : Vec Command Global). stream.items) made.streams.items)) }
    ensures few { IfOk result (λ made. total vec_len made.streams.items ≤ MAX_COMMANDS) }
{
    let made = make(
        alloc,
        numbers.seed,
        numbers.students,
        numbers.sections,
        numbers.accept,
    )?;
    Ok(MadeMarket {
        catalog: catalog_in(alloc, &made.catalog)?,
        roll: roll_in(alloc, &made.roll)?,
        settings: settings_in(alloc, &made.settings)?,
        streams: streams_in(alloc, &made.first, &made.second)?,
    })
}
