//! The settings of a market: read from JSON, each in its range, or refused for the first fault.
#![tactic(auto)]

mod keys;
mod reader;
mod step_sizes;
mod values;

pub use keys::Key;
pub use reader::{Settings, SettingsRefusal, read_settings};
pub use step_sizes::{StepSizes, are_step_sizes};
