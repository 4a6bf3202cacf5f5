// The printed budgets.
ghost use Rattle.certificate_checker.specs.Findings.{HoldsToBudgets, IsAnswered};
ghost use Rattle.certificate_checker.specs.Views.{printed_in, terms_seen};

use crate::Finding;
use crate::printed::Printed;
use market_units::StudentNo;

/// Whether each student's printed budget is the one that the seed draws. Else a finding on the
/// first student of whom it is not so.
pub(crate) fn check_budgets(printed: &Printed) -> Result<(), Finding>
    ensures { IsAnswered HoldsToBudgets (terms_seen printed.now) (printed_in printed.now)
        result }
{
    let terms = printed.terms;
    let publication = printed.publication;
    for place in 0..publication.budgets.len() {
        if publication.budgets[place] != terms.crowd.budgets[place] {
            return Err(Finding::Budget {
                student: StudentNo(place as u16),
            });
        }
    }
    Ok(())
}
