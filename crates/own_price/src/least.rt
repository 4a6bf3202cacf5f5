// The least price of a section.
ghost use Rattle.std.specs.Prelude.{◌≡◌, ◌<◌, ◌+◌, ◌*◌, ◌^◌, ℕ, IfOk, length};
ghost use Rattle.bundle_rules.specs.Demand.{price_in};
ghost use Rattle.demand_api.specs.Asking.{ArePricesFor, RoseAtMost, RoseByDigits};
ghost use Rattle.demand_api.specs.Crowds.{top};
ghost use Rattle.own_price.specs.Least.{IsLeastPrice};

use demand_api::Demands;
use market_units::{NoMemory, SectionNo, Tokens};
use std::alloc::Global;
use std::sync::Wait;
use std::thread::Threads;

/// The least price of the section, of all prices from 0, at which at most `limit` students take it,
/// the other prices as given. There is a price for each section, at most the top. At most as many
/// calls are made as the top has binary digits, and one more, and at most as many students asked as
/// the crowd has, times one more than twice those digits. The one error is the want of memory.
pub fn least_price<R: Threads + Wait + Sync, D: Demands>(
    rt: &R,
    alloc: Global,
    demands: &mut D,
    prices: &[Tokens],
    section: SectionNo,
    limit: u32,
) -> Result<Tokens, NoMemory>
    requires prices { ArePricesFor (D.crowd demands.old) prices.now }
    requires section { section.0 < (D.crowd demands.old).sections }
    ensures crowd { D.crowd demands.new ≡ D.crowd demands.old }
    ensures asked { RoseByDigits 1 (top (D.crowd demands.old)) (D.asked demands.old)
        (D.asked demands.new) }
    ensures inquiries { (digits : ℕ) → top (D.crowd demands.old) < 2 ^ digits
        → RoseAtMost (length (D.crowd demands.old).students * (2 * digits + 1))
        (D.inquiries demands.old) (D.inquiries demands.new) }
    ensures value { IfOk result
        (λ least. IsLeastPrice (D.crowd demands.old) (price_in prices.now) section.0 limit
        least.0) }
{
    let mut from_zero = prices.to_vec(alloc)?;
    from_zero[usize::from(section.0)] = Tokens(0);
    let least = demands.least_prices(rt, alloc, &from_zero, &[(section, limit)])?;
    Ok(least[0])
}
