// A rating.
ghost use Rattle.std.specs.Prelude.{◌≤◌};
ghost use Rattle.market_units.specs.declared.limits.TheConstants.{MAX_RATING};

/// A rating of a section, from 0, which is none, to 100.
#[derive(Clone, Copy, Debug)]
pub(crate) struct Rating {
    pub n: u8,
    ghost small: { n ≤ MAX_RATING },
}
