// What a few bounds of a resource tell of the others: as a function of its price, a resource's
// bound is convex.
ghost use Rattle.std.specs.Prelude.{◌≡◌, ◌<◌, ◌≤◌, ◌≤ℤ◌, ◌+◌, ◌-◌, ◌*◌, ◌/◌, ◌^◌, ◌+ℤ◌, ℤ, ℕ, List, pos, IsTrue};
ghost use Rattle.bundle_bounds.specs.{Bounds.at_price, declared.prospects.Prospect.Prospect};
ghost use Rattle.bundle_bounds.specs.declared.prospects.Resource.{Resource};

// More than any price of a bound.
const HIGHEST: u64 = 20_000_001;

/// No bound is below the limit at a price below `low`, nor at one from `high` on.
#[derive(Clone, Copy)]
pub(crate) struct Known {
    pub(crate) low: u64,
    pub(crate) high: u64,
}

impl Known {
    ghost use Rattle.bundle_bounds.specs.Known.{IsKnown};

    /// Nothing is known of any price.
    pub(crate) fn nothing() -> Known
        ensures { (base limit : ℤ) (rest : ℕ) (resource : Resource) (all : List Prospect)
            → IsKnown base limit rest resource all result }
    {
        Known {
            low: 0,
            high: HIGHEST,
        }
    }

    /// Whether it is known that the bound at the price of so much worth for so much that is taken
    /// is not below the limit. The price is the quotient, rounded down.
    pub(crate) fn has_ratio(&self, worth: u64, taken: u64) -> bool
        requires worth { worth ≤ 20000000 }
        requires taken { taken < 2 ^ 32 }
        requires low { self.now.low ≤ 20000002 }
        requires high { self.now.high ≤ 20000001 }
        ensures { IsTrue result → 0 < taken → (base limit : ℤ) (rest : ℕ) (resource : Resource) (all : List Prospect) → IsKnown base limit rest resource all self.now
            → limit ≤ℤ (base +ℤ pos (at_price resource rest (worth / taken) all)) }
    {
        // Multiplied and not divided: a division costs as much as a sum over the open places.
        if worth < self.low * taken {
            return true;
        }
        worth >= self.high * taken
    }

    /// Whether it is known that no bound is below the limit, at whatever price.
    pub(crate) fn is_all(&self) -> bool
        ensures { IsTrue result → self.now.high ≤ self.now.low }
    {
        self.high <= self.low
    }

    /// Takes in what a price and the next one make, where the bound at the first is above the limit
    /// by at least the margin. The bound does not fall on the side on which it rises here; on the
    /// other side it falls by no more at a step than here.
    pub(crate) fn learn(&mut self, price: u64, sum: u64, next: u64, margin: u64)
        requires price { price < 20000000 }
        requires high { self.old.high ≤ 20000001 }
        requires margin { margin ≤ 1000000000000000000 }
        ensures { (base limit : ℤ) (rest : ℕ) (resource : Resource) (all : List Prospect) → IsKnown base limit rest resource all self.old
            → sum ≡ at_price resource rest price all → next ≡ at_price resource rest (price + 1) all → (limit +ℤ pos margin) ≤ℤ (base +ℤ pos sum) → IsKnown base limit rest resource all self.new }
    {
        if next >= sum {
            let from = price.saturating_sub(steps_within(margin, next - sum, price));
            self.high = self.high.min(from);
        } else {
            let most = self.high.saturating_sub(price);
            let up_to = price + steps_within(margin, sum - next, most);
            self.low = self.low.max(up_to + 1);
        }
    }
}

// How many steps of this height stay within the margin, but no more than these, which are as good
// as all.
fn steps_within(margin: u64, height: u64, most: u64) -> u64
    requires { margin < 2 ^ 64 - 1 }
    ensures within { result * height ≤ margin }
    ensures high { result ≤ most }
{
    if height.saturating_mul(most) <= margin {
        return most;
    }
    (margin / height).min(most)
}
