// Numbers and lists of numbers in a JSON value.
ghost use Rattle.std.specs.Prelude.{◌≡◌, ◌≢◌, ◌≤◌, Some, None, IfOk, IfErr, IfSome, MatchResult, All, length, option_map, option_and_then};
ghost use Rattle.serde_json.specs.Find.{get, as_array};
ghost use Rattle.serde_json.specs.View.{view, items_view, members_view};
ghost use Rattle.market_settings.specs.Keys.{key_name, least_of, greatest_of};
ghost use Rattle.market_settings.specs.StepSizes.{AreStepSizes};
ghost use Rattle.market_settings.specs.Values.{reading, whole_within, numbers_within, number_at, step_sizes_in, has_unknown};

use crate::keys::is_setting;
use crate::step_sizes::is_step_count;
use crate::{Key, SettingsRefusal, StepSizes};
use market_units::MAX_STEP;
use serde_json::{Map, Value};
use std::alloc::Global;

/// The JSON value that the bytes are; `NotJson` where they are none, `NoMemory` where memory was
/// not given.
pub(crate) fn read_value(alloc: Global, bytes: &[u8]) -> Result<Value, SettingsRefusal>
    ensures value { IfOk result (λ value. reading bytes.now ≡ Some (view value)) }
    ensures only { IfErr result
        (λ e. e ≢ SettingsRefusal.NoMemory
        → (e ≡ SettingsRefusal.NotJson) × (reading bytes.now ≡ None)) }
{
    match Value::from_slice(alloc, bytes) {
        Ok(value) => Ok(value),
        Err(error) => {
            if error.is_memory() {
                Err(SettingsRefusal::NoMemory)
            } else {
                Err(SettingsRefusal::NotJson)
            }
        }
    }
}

/// Whether the object has a member whose name is not that of a setting.
pub(crate) fn has_unknown(object: &Map<String, Value>) -> bool
    ensures { result ≡ has_unknown (members_view object.now.entries) }
{
    for (name, _) in object.iter() {
        if !is_setting(name.as_str()) {
            return true;
        }
    }
    false
}

// The whole number from the least to the greatest that the value is.
fn whole_within(value: &Value, least: u64, greatest: u64) -> Option<u64>
    ensures value { result ≡ whole_within least greatest (view value.now) }
    ensures within { IfSome result (λ n. (least ≤ n) × (n ≤ greatest)) }
{
    let number = value.as_u64()?;
    if number < least || number > greatest {
        return None;
    }
    Some(number)
}

/// The number that the object has for a setting. `Range` with the setting, where the member is
/// missing, or is not a whole number from the least to the greatest that the setting may have.
pub(crate) fn number_at(value: &Value, key: Key) -> Result<u64, SettingsRefusal>
    ensures value { MatchResult result (λ n. number_at key (view value.now) ≡ Some n)
        (λ e. (e ≡ SettingsRefusal.Range key) × (number_at key (view value.now) ≡ None)) }
    ensures within { IfOk result (λ n. (least_of key ≤ n) × (n ≤ greatest_of key)) }
{
    let Some(found) = value.get(key.name()) else {
        return Err(SettingsRefusal::Range(key));
    };
    let Some(number) = whole_within(found, key.least(), key.greatest()) else {
        return Err(SettingsRefusal::Range(key));
    };
    Ok(number)
}

/// The step sizes that the object has, in their order. `Range` with the steps, where the member is
/// missing, is no list, has none or too many, or one is out of range; `NoMemory` where memory was
/// not given.
pub(crate) fn step_sizes_at(alloc: Global, value: &Value) -> Result<StepSizes, SettingsRefusal>
    ensures sizes { IfOk result (λ sizes. step_sizes_in (view value.now) ≡ Some sizes) }
    ensures in_range { IfOk result AreStepSizes }
    ensures only { IfErr result
        (λ e. e ≢ SettingsRefusal.NoMemory
        → (e ≡ SettingsRefusal.Range Key.Steps) × (step_sizes_in (view value.now) ≡ None)) }
{
    let Some(items) = step_items(value) else {
        return Err(SettingsRefusal::Range(Key::Steps));
    };
    if !is_step_count(items.len()) {
        return Err(SettingsRefusal::Range(Key::Steps));
    }
    let sizes = sizes_within(alloc, items)?;
    Ok(StepSizes::from_vec(sizes))
}

// The items of the steps, if these are an array.
fn step_items(value: &Value) -> Option<&Vec<Value>>
    ensures { option_map (λ items. items_view items.now.items) result
        ≡ option_and_then as_array (get (key_name Key.Steps) (view value.now)) }
{
    value.get(Key::Steps.name()).and_then(Value::as_array)
}

// The items as step sizes, if each is one.
fn sizes_within(alloc: Global, items: &[Value]) -> Result<Vec<u32>, SettingsRefusal>
    ensures sizes { IfOk result
        (λ sizes. numbers_within 1 MAX_STEP (items_view items.now) ≡ Some sizes.items) }
    ensures count { IfOk result (λ sizes. length sizes.items ≡ length items.now) }
    ensures within { IfOk result
        (λ sizes. All (λ size. (1 ≤ size) × (size ≤ MAX_STEP)) sizes.items) }
    ensures only { IfErr result
        (λ e. e ≢ SettingsRefusal.NoMemory
        → (e ≡ SettingsRefusal.Range Key.Steps)
        × (numbers_within 1 MAX_STEP (items_view items.now) ≡ None)) }
{
    let mut sizes = Vec::new(alloc);
    for item in items {
        let Some(size) = whole_within(item, Key::Steps.least(), Key::Steps.greatest()) else {
            return Err(SettingsRefusal::Range(Key::Steps));
        };
        if sizes.push(size as u32).is_err() {
            return Err(SettingsRefusal::NoMemory);
        }
    }
    Ok(sizes)
}
