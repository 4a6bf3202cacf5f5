// The settings by name, in the order in which they are looked for.
ghost use Rattle.std.specs.Prelude.{◌≡◌};
ghost use Rattle.market_settings.specs.Keys.{key_name, is_setting, least_of, greatest_of};

use market_units::{
    MAX_ACCEPT, MAX_PATIENCE, MAX_RAISE, MAX_SPREAD, MAX_STEP, MAX_TABU, MAX_TURNS,
};

/// The name of a setting. The variants stand in the order in which settings are looked for.
#[derive(Clone, Copy, Debug, PartialEq, Eq)]
pub enum Key {
    Seed,
    Spread,
    Accept,
    Turns,
    Tabu,
    Patience,
    Steps,
    Raise,
}

pub(crate) const KEYS: [Key; 8] = [
    Key::Seed,
    Key::Spread,
    Key::Accept,
    Key::Turns,
    Key::Tabu,
    Key::Patience,
    Key::Steps,
    Key::Raise,
];

impl Key {
    /// The name as it is written in the settings.
    pub fn name(self) -> &'static str
        ensures { result.now ≡ key_name self }
    {
        match self {
            Key::Seed => "seed",
            Key::Spread => "spread",
            Key::Accept => "accept",
            Key::Turns => "turns",
            Key::Tabu => "tabu",
            Key::Patience => "patience",
            Key::Steps => "steps",
            Key::Raise => "raise",
        }
    }

    /// The least number that the setting may have; for the steps, that each step may have.
    pub(crate) fn least(self) -> u64
        ensures { result ≡ least_of self }
    {
        match self {
            Key::Tabu | Key::Patience | Key::Steps => 1,
            Key::Seed | Key::Spread | Key::Accept | Key::Turns | Key::Raise => 0,
        }
    }

    /// The greatest number that the setting may have; for the steps, that each step may have.
    pub(crate) fn greatest(self) -> u64
        ensures { result ≡ greatest_of self }
    {
        match self {
            Key::Seed => u64::MAX,
            Key::Spread => u64::from(MAX_SPREAD),
            Key::Accept => MAX_ACCEPT,
            Key::Turns => u64::from(MAX_TURNS),
            Key::Tabu => u64::from(MAX_TABU),
            Key::Patience => u64::from(MAX_PATIENCE),
            Key::Steps => u64::from(MAX_STEP),
            Key::Raise => u64::from(MAX_RAISE),
        }
    }
}

/// Whether a setting has this name. Capital and small letters differ.
pub(crate) fn is_setting(name: &str) -> bool
    ensures { result ≡ is_setting name.now }
{
    KEYS.iter().any(|key| key.name() == name)
}
