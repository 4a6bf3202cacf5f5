// What a place adds, and what it costs.
ghost use Rattle.std.specs.Prelude.{◌≤◌};

/// The most that a place can add, in thousandths of a point of utility, at most 65,635,001, and what
/// it costs in units.
#[derive(Clone, Copy)]
pub(crate) struct Gain {
    pub(crate) value: u32,
    pub(crate) cost: usize,
    ghost small: { value ≤ 65635001 },
}
