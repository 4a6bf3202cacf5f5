// The seats of the second stage, and those that are printed as used.
ghost use Rattle.std.specs.Prelude.{◌≡◌, ◌↔◌, IsTrue, IfErr, OnOk};
ghost use Rattle.published_parts.specs.Holdings.{demanded};
ghost use Rattle.certificate_checker.specs.Certificates.{IsUseTold};
ghost use Rattle.certificate_checker.specs.Findings.{HoldsToAllocation, HoldsToBundles, HoldsToSeats, IsAnswered, IsFirstIn};
ghost use Rattle.certificate_checker.specs.{Firsts.AllBelow, Parts.AreHeldOn};
ghost use Rattle.certificate_checker.specs.Views.{printed_in, terms_seen};

use crate::Finding;
use crate::printed::Printed;
use held_seats::Floor;
use market_units::SectionNo;

/// Whether no section has more students in the second stage than seats; the floor has their
/// bundles. Else a finding on the first section that has, with both numbers.
pub(crate) fn check_seats(printed: &Printed, floor: &Floor) -> Result<(), Finding>
    requires before { HoldsToBundles (terms_seen printed.now) (printed_in printed.now) }
    requires floor { AreHeldOn printed.now.terms.now.seats.items (demanded (printed_in printed.now))
        floor.now }
    ensures { IsAnswered HoldsToSeats (terms_seen printed.now) (printed_in printed.now)
        result }
{
    let terms = printed.terms;
    for place in 0..terms.seats.len() {
        let used = floor.used[place];
        let seats = terms.seats[place];
        if used > u32::from(seats) {
            return Err(Finding::Seats {
                section: SectionNo(place as u16),
                used,
                seats,
            });
        }
    }
    Ok(())
}

/// Whether the printed seats of each section are the number of its final holders, who are those on
/// the floor, and the catalogue's seats. Else a finding on the first section of which it is not so.
pub(crate) fn check_used(printed: &Printed, floor: &Floor) -> Result<(), Finding>
    requires before { HoldsToAllocation (terms_seen printed.now) (printed_in printed.now) }
    requires floor { AreHeldOn printed.now.terms.now.seats.items (printed_in printed.now).allocation
        floor.now }
    ensures ok { OnOk result
        (AllBelow (terms_seen printed.now).crowd.sections
        (IsUseTold (terms_seen printed.now).seats (printed_in printed.now))) }
    ensures first { IfErr result (IsFirstIn (terms_seen printed.now) (printed_in printed.now)) }
{
    let terms = printed.terms;
    let publication = printed.publication;
    for place in 0..terms.seats.len() {
        let told = publication.used[place];
        if !is_used(told, floor.used[place], terms.seats[place]) {
            return Err(Finding::Used {
                section: SectionNo(place as u16),
            });
        }
    }
    Ok(())
}

// Whether the printed seats, used and all, are these.
fn is_used(printed: (u16, u16), used: u32, seats: u16) -> bool
    ensures { IsTrue result ↔ (printed ≡ (used, seats)) }
{
    u32::from(printed.0) == used && printed.1 == seats
}
