// The final bundles.
ghost use Rattle.published_parts.specs.Holdings.{demanded, held_after};
ghost use Rattle.certificate_checker.specs.Findings.{HoldsToAllocation, HoldsToTheEnd, IsAnswered};
ghost use Rattle.certificate_checker.specs.{Parts.AreHeldOn, Views.printed_in, Views.terms_seen};

use crate::Finding;
use crate::printed::Printed;
use held_seats::Floor;
use market_units::StudentNo;

/// Whether each student's printed final bundle is the one that it holds on the floor, after the
/// last turn. Else a finding on the first student of whom it is not so.
pub(crate) fn check_allocation(printed: &Printed, floor: &Floor) -> Result<(), Finding>
    requires before { HoldsToTheEnd (terms_seen printed.now) (printed_in printed.now) }
    requires floor { AreHeldOn printed.now.terms.now.seats.items
        (held_after (demanded (printed_in printed.now))
        (printed_in printed.now).turns) floor.now }
    ensures { IsAnswered HoldsToAllocation (terms_seen printed.now) (printed_in printed.now)
        result }
{
    let publication = printed.publication;
    for place in 0..publication.allocation.len() {
        if publication.allocation[place] != floor.held[place] {
            return Err(Finding::Allocation {
                student: StudentNo(place as u16),
            });
        }
    }
    Ok(())
}
