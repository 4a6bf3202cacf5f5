// The step sizes of the search.
ghost use Rattle.std.specs.Prelude.{◌≡◌, ◌↔◌, IsTrue, ◌&&◌, nat_le};
ghost use Rattle.market_settings.specs.StepSizes.{AreStepSizes};

use market_units::{MAX_STEP, MAX_STEPS};
use std::marker::Model;

/// The step sizes of the search: 1 to 16 numbers from 1 to 100,000, seen as their list.
#[derive(Debug, Drop)]
pub struct StepSizes {
    sizes: Vec<u32>,
}

impl Model for StepSizes {
    ghost use Rattle.std.specs.Prelude.{List, ℕ};
    ghost use Rattle.market_settings.specs.StepSizes.{AreStepSizes};

    ghost Value = { List ℕ };

    ghost view = { λ steps. steps.sizes.items };

    ghost invariant = { λ steps. AreStepSizes steps.sizes.items };
}

impl StepSizes {
    /// Keeps the list. It takes no memory.
    pub fn from_vec(sizes: Vec<u32>) -> StepSizes
        requires { AreStepSizes sizes.items }
        ensures { result ≡ sizes.items }
    {
        StepSizes { sizes }
    }

    /// Gives the list back. It takes no memory.
    pub fn into_vec(self) -> Vec<u32>
        ensures sizes { result.items ≡ self }
        ensures in_range { AreStepSizes result.items }
    {
        let StepSizes { sizes } = self;
        sizes
    }

    /// The list.
    pub fn as_slice(&self) -> &[u32]
        ensures sizes { result.now ≡ self.now }
        ensures in_range { AreStepSizes self.now }
    {
        self.sizes.as_slice()
    }
}

/// Whether these are 1 to 16 numbers from 1 to 100,000.
pub fn are_step_sizes(sizes: &[u32]) -> bool
    ensures { IsTrue result ↔ AreStepSizes sizes.now }
{
    is_step_count(sizes.len()) && sizes.iter().all(|&size| 1 <= size && size <= MAX_STEP)
}

/// Whether a list of step sizes may be so long: from 1 to 16.
pub(crate) fn is_step_count(count: usize) -> bool
    ensures { result ≡ (nat_le 1 count && nat_le count MAX_STEPS) }
{
    1 <= count && count <= MAX_STEPS
}
