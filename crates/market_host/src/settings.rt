// The settings of a call.
ghost use Rattle.std.specs.Prelude.{◌≡◌, ◌≢◌, Ok, Err, refl};
ghost use Rattle.market_settings.specs.Settings.{AreInRange, settings_of};
ghost use Rattle.market_words.specs.Kinds as kinds;
ghost use Rattle.market_host.specs.{Marks.without_mark, Reading.IsRefusal, Refusals.AreNoSettings};

use crate::Cause;
use crate::input::{Input, without_mark};
use crate::trouble::Trouble;
use market_settings::{Settings, SettingsRefusal, read_settings};
use std::alloc::Global;

// A fault of settings has no row.
const NO_ROW: u32 = 0;

impl Input for Settings {
    ghost kind = { kinds.Settings };

    ghost is_said_by = { λ text settings. settings_of (without_mark text) ≡ Ok settings };

    ghost is_sound = { AreInRange };

    ghost is_faulty = { AreNoSettings };

    fn read_from(alloc: Global, bytes: &[u8], input: u16) -> Result<Self, Trouble> {
        match read_settings(alloc, without_mark(bytes)) {
            Ok(settings) => Ok(settings),
            Err(refusal) => Err(trouble_of(bytes, input, refusal)),
        }
    }

    ghost within = { refl };

    ghost grammar = { λ earlier text said is. (said, is) };

    ghost faults = { λ earlier text row cause is. is };
}

// What is told of a refusal of these bytes.
fn trouble_of(_bytes: &[u8], input: u16, refusal: SettingsRefusal) -> Trouble
    requires { refusal ≢ SettingsRefusal.NoMemory
        → settings_of (without_mark _bytes.now) ≡ Err refusal }
    ensures { IsRefusal (AreNoSettings _bytes.now) input result }
{
    let cause = match refusal {
        SettingsRefusal::NotJson => Cause::NotJson,
        SettingsRefusal::NotObject => Cause::NotObject,
        SettingsRefusal::Missing(key) => Cause::Missing(key),
        SettingsRefusal::Unknown => Cause::Unknown,
        SettingsRefusal::Range(key) => Cause::Range(key),
        SettingsRefusal::NoMemory => return Trouble::OutOfMemory,
    };
    Trouble::Refused {
        input,
        row: NO_ROW,
        cause,
    }
}
