// The numbers that markets are made of.
ghost use Rattle.std.specs.Prelude.{◌≤◌, ◌<◌, ◌^◌};
ghost use Rattle.market_units.specs.declared.limits.TheConstants.{MAX_ACCEPT, MAX_SECTIONS, MAX_STUDENTS};

/// The numbers that a market is made of.
#[derive(Clone, Copy, Debug)]
pub struct Numbers {
    /// The seed of its settings, on which the ratings depend too.
    pub seed: u64,
    /// How many students there are, 1 to 2,000.
    pub students: u16,
    /// How many sections there are, 1 to 400.
    pub sections: u16,
    /// The greatest clearing error that its settings accept, at most 10^12.
    pub accept: u64,
    // True of every `u64`; the prover is not told so of a field.
    pub ghost seed_fits: { seed < 2 ^ 64 },
    pub ghost some_students: { 1 ≤ students },
    pub ghost few_students: { students ≤ MAX_STUDENTS },
    pub ghost some_sections: { 1 ≤ sections },
    pub ghost few_sections: { sections ≤ MAX_SECTIONS },
    pub ghost accept_fits: { accept ≤ MAX_ACCEPT },
}
