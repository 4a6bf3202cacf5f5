// Where the sections stand that became cheaper.
ghost use Rattle.std.specs.Prelude.{◌≡◌, ◌<◌, ◌≤◌, ◌↔◌, ◌+◌, ℕ, All, IfSome, IsTrue, length};
ghost use Rattle.bundle_rules.specs.Demand.{price_in};
ghost use Rattle.demand_workers.specs.Remembered.{FellWithin, NoneIsCheaper};

use bundle_rules::Rated;
use market_units::{SectionNo, Tokens};

// A section that is below the first number, or not below the second, did not become cheaper.
#[derive(Clone, Copy)]
pub(crate) struct Cheaper {
    pub first: usize,
    pub past: usize,
}

impl Cheaper {
    /// Any section may have become cheaper.
    pub(crate) fn anywhere(before: &[Tokens], _after: &[Tokens]) -> Cheaper
        ensures { FellWithin result.first result.past before.now _after.now }
    {
        Cheaper {
            first: 0,
            past: before.len(),
        }
    }

    /// No section became cheaper.
    pub(crate) fn nowhere(_before: &[Tokens], _after: &[Tokens]) -> Cheaper
        requires { (s : ℕ) → price_in _before.now s ≤ price_in _after.now s }
        ensures { FellWithin result.first result.past _before.now _after.now }
    {
        Cheaper { first: 0, past: 0 }
    }

    /// From the first section that became cheaper to the last. Where none did, there is none
    /// between the two.
    pub(crate) fn between(before: &[Tokens], after: &[Tokens]) -> Cheaper
        ensures { FellWithin result.first result.past before.now after.now }
    {
        let sections = before.len().min(after.len());
        let mut first = sections;
        let mut past = 0;
        for place in 0..sections {
            if is_no_cheaper(place, before, after) {
                continue;
            }
            first = first.min(place);
            past = place + 1;
        }
        Cheaper { first, past }
    }

    /// The section that alone may have become cheaper; `None` where several may have, or none.
    pub(crate) fn alone(self) -> Option<SectionNo>
        ensures { IfSome result
            (λ section. (section.0 ≡ self.first) × (self.past ≡ self.first + 1)) }
    {
        if self.past <= self.first || self.past - self.first > 1 {
            return None;
        }
        match u16::try_from(self.first) {
            Ok(section) => Some(SectionNo(section)),
            Err(_) => None,
        }
    }
}

/// Whether it is known that no section at these places became cheaper.
pub(crate) fn spares(
    cheaper: Cheaper,
    places: &[Rated],
    before: &[Tokens],
    after: &[Tokens],
) -> bool
    requires before { All (λ rated. rated.section.0 < length before.now) places.now }
    requires after { All (λ rated. rated.section.0 < length after.now) places.now }
    requires within { FellWithin cheaper.first cheaper.past before.now after.now }
    ensures { IsTrue result → NoneIsCheaper places.now before.now after.now }
{
    if cheaper.past <= cheaper.first {
        return true;
    }
    match places {
        [] => true,
        [rated, more @ ..] => {
            is_spared(cheaper, rated.section, before, after) && spares(cheaper, more, before, after)
        }
    }
}

// Whether the section did not become cheaper. Most stand where none did.
fn is_spared(cheaper: Cheaper, section: SectionNo, before: &[Tokens], after: &[Tokens]) -> bool
    requires before { section.0 < length before.now }
    requires after { section.0 < length after.now }
    requires within { FellWithin cheaper.first cheaper.past before.now after.now }
    ensures { IsTrue result → price_in before.now section.0 ≤ price_in after.now section.0 }
{
    let place = usize::from(section.0);
    if place < cheaper.first {
        return true;
    }
    if cheaper.past <= place {
        return true;
    }
    is_no_cheaper(place, before, after)
}

fn is_no_cheaper(place: usize, before: &[Tokens], after: &[Tokens]) -> bool
    requires before { place < length before.now }
    requires after { place < length after.now }
    ensures { IsTrue result ↔ (price_in before.now place ≤ price_in after.now place) }
{
    before[place].0 <= after[place].0
}
