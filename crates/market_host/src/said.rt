// What the inputs of a call say.
ghost use Rattle.std.specs.Prelude.{◌≤◌, length};
ghost use Rattle.std.specs.Vec.{vec_len};
ghost use Rattle.market_settings.specs.Settings.{AreInRange};
ghost use Rattle.market_units.specs.Totals.{total};
ghost use Rattle.market_units.specs.declared.limits.TheConstants.{MAX_COMMANDS, MAX_SESSIONS, MAX_TEXT_BYTES};

use course_catalog::Catalog;
use market_settings::Settings;
use student_roll::Roll;
use utility_language::Command;

/// What a catalogue and a roll say.
#[derive(Drop)]
pub struct Tables {
    pub catalog: Catalog,
    pub roll: Roll,
}

/// What a catalogue, a roll and settings say. The settings are in their ranges.
#[derive(Drop)]
pub struct Market {
    pub catalog: Catalog,
    pub roll: Roll,
    pub settings: Settings,
    pub ghost in_range: { AreInRange settings },
}

/// A stream for each session of a call: of at least one and at most 64 sessions, and at most
/// 200,000 commands or requests in all streams together.
#[derive(Drop)]
pub struct Streams<S: Drop> {
    pub lists: Vec<Vec<S>>,
    pub ghost some: { 1 ≤ length lists.items },
    pub ghost few: { length lists.items ≤ MAX_SESSIONS },
    pub ghost room: { total vec_len lists.items ≤ MAX_COMMANDS },
}

/// What the inputs of a call say that looks at a published text: the market, the text's bytes as
/// they stand, which are within their limit, and the commands of each session.
#[derive(Drop)]
pub struct Published {
    pub market: Market,
    pub text: Vec<u8>,
    pub streams: Streams<Command>,
    pub ghost short: { length text.items ≤ MAX_TEXT_BYTES },
}
