// Settings, and why there are none.
ghost use Rattle.std.specs.Prelude.{◌≡◌, ◌≢◌, Ok, Err, Some, None, IfOk, IfErr, is_some, is_none};
ghost use Rattle.serde_json.specs.View.{view};
ghost use Rattle.market_settings.specs.Settings.{settings_of, first_missing, out_of_range, values_of, AreInRange};

use crate::keys::KEYS;
use crate::values::{has_unknown, number_at, read_value, step_sizes_at};
use crate::{Key, StepSizes};
use serde_json::Value;
use std::alloc::Global;

/// The settings of a market. `AreInRange` says the ranges, and no ghost field does, so that clauses
/// compare settings with the definition's value field by field.
#[derive(Debug, Drop)]
pub struct Settings {
    /// The seed of all draws.
    pub seed: u64,
    /// Tokens between the budgets of neighbouring ranks, 0 to 49.
    pub spread: u8,
    /// The greatest clearing error with which the search may end, 0 to 10^12.
    pub accept: u64,
    /// At most this many turns of the search, 0 to 10,000.
    pub turns: u32,
    /// How many visited count vectors are forbidden, 1 to 1,000.
    pub tabu: u32,
    /// Turns without a better vector before the search starts anew, 1 to 10,000.
    pub patience: u32,
    /// The step sizes of the search: 1 to 16 numbers, each 1 to 100,000.
    pub steps: StepSizes,
    /// By how many percent budgets rise in the aftermarket, 0 to 50.
    pub raise: u8,
}

/// Why bytes are no settings. The variants stand in the order in which faults are looked for.
#[derive(Clone, Copy, Debug, PartialEq, Eq)]
pub enum SettingsRefusal {
    /// The bytes are not JSON.
    NotJson,
    /// The value is no object.
    NotObject,
    /// This setting, the first by the order of keys, is absent.
    Missing(Key),
    /// Some name is that of no setting.
    Unknown,
    /// This setting, the first by the order of keys, is not in its range.
    Range(Key),
    /// Memory was wanted and not given.
    NoMemory,
}

/// The settings that the bytes are: a JSON object of exactly the eight settings, each a whole
/// number in its range, the steps an array of 1 to 16 such numbers. Of a name that is written
/// twice the last value counts. Otherwise the first fault in the order of `SettingsRefusal`.
pub fn read_settings(alloc: Global, bytes: &[u8]) -> Result<Settings, SettingsRefusal>
    ensures read { IfOk result (λ settings. settings_of bytes.now ≡ Ok settings) }
    ensures refused { IfErr result
        (λ refusal. refusal ≢ SettingsRefusal.NoMemory → settings_of bytes.now ≡ Err refusal) }
    ensures in_range { IfOk result AreInRange }
{
    let value = read_value(alloc, bytes)?;
    let Some(object) = value.as_object() else {
        return Err(SettingsRefusal::NotObject);
    };
    if let Some(key) = first_missing(&value) {
        return Err(SettingsRefusal::Missing(key));
    }
    if has_unknown(object) {
        return Err(SettingsRefusal::Unknown);
    }
    settings_in(alloc, &value)
}

// The first setting in order that the value lacks.
fn first_missing(value: &Value) -> Option<Key>
    ensures { result ≡ first_missing (view value.now) }
{
    KEYS.iter()
        .copied()
        .find(|key| value.get(key.name()).is_none())
}

// The settings of a value that has them all.
fn settings_in(alloc: Global, value: &Value) -> Result<Settings, SettingsRefusal>
    ensures read { IfOk result
        (λ settings. (out_of_range (view value.now) ≡ None)
        × (settings ≡ values_of (view value.now))) }
    ensures refused { IfErr result
        (λ refusal. refusal ≢ SettingsRefusal.NoMemory
        → out_of_range (view value.now) ≡ Some refusal) }
    ensures in_range { IfOk result AreInRange }
{
    let seed = number_at(value, Key::Seed)?;
    let spread = number_at(value, Key::Spread)?;
    let accept = number_at(value, Key::Accept)?;
    let turns = number_at(value, Key::Turns)?;
    let tabu = number_at(value, Key::Tabu)?;
    let patience = number_at(value, Key::Patience)?;
    let steps = step_sizes_at(alloc, value)?;
    let raise = number_at(value, Key::Raise)?;
    Ok(Settings {
        seed,
        spread: spread as u8,
        accept,
        turns: turns as u32,
        tabu: tabu as u32,
        patience: patience as u32,
        steps,
        raise: raise as u8,
    })
}
