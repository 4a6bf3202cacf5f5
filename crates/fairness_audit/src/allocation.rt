// Which bundles can be audited.
ghost use Rattle.std.specs.Prelude.{◌↔◌, IsTrue};
ghost use Rattle.fairness_audit.specs.Allocations.{IsAllocation, allocation_of};
ghost use Rattle.fairness_audit.specs.Props.{IsAllocation-prop};

use bundle_rules::{Bundle, feasible};
use demand_api::Crowd;

/// A crowd, and for each of its students a bundle that the student may take.
#[derive(Clone, Copy)]
pub(crate) struct Allocated<'a> {
    pub crowd: &'a Crowd,
    pub bundles: &'a [Bundle],
    pub ghost may: { IsAllocation (allocation_of crowd.now bundles.now) } by { IsAllocation-prop (allocation_of crowd.now bundles.now) },
}

/// Whether there is one bundle for each student of the crowd, which it may take: what `audit` and
/// `count_envy` need.
pub fn is_allocation(crowd: &Crowd, bundles: &[Bundle]) -> bool
    ensures { IsTrue result ↔ IsAllocation (allocation_of crowd.now bundles.now) }
{
    if bundles.len() != crowd.menus.len() {
        return false;
    }
    'students: for place in 0..bundles.len() {
        if !feasible(&crowd.menus[place], &bundles[place]) {
            return false;
        }
    }
    true
}
