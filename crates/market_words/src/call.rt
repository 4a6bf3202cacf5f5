// A call of the program.
ghost use Rattle.std.specs.Prelude.{◌≤◌, length};
ghost use Rattle.market_units.specs.declared.limits.TheConstants.{MAX_SESSIONS};

use crate::Form;

/// What the words of a call ask for, and those among them that name its inputs, in order: first at
/// most four, as a catalogue, and then at most 64 streams. `make` has no inputs.
#[derive(Clone, Copy)]
pub struct Call<'w> {
    /// What is asked for.
    pub form: Form,
    /// The names of the inputs in front of the streams.
    pub front: &'w [String],
    /// The names of the sessions, or of the streams of requests.
    pub streams: &'w [String],
    pub ghost short: { length front.now ≤ 4 },
    pub ghost few: { length streams.now ≤ MAX_SESSIONS },
}
