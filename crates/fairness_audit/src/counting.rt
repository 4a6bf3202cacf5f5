// The row of one student.
ghost use Rattle.std.specs.Prelude.{◌≡◌, ◌<◌, length};
ghost use Rattle.fairness_audit.specs.Allocations.{IsAllocation, allocation_of};
ghost use Rattle.fairness_audit.specs.{Rows.row, Views.row_of};

use crate::row::EnvyRow;
use crate::sight::sight;
use crate::weights::weights_of;
use bundle_rules::{Bundle, utility};
use demand_api::Crowd;
use market_units::StudentNo;

/// Whom one student envies, of all who have these bundles: one for each student of the crowd, which
/// it may take.
pub fn count_envy(crowd: &Crowd, bundles: &[Bundle], student: StudentNo) -> EnvyRow
    requires bundles { IsAllocation (allocation_of crowd.now bundles.now) }
    requires student { student.0 < length crowd.now.menus.items }
    ensures { row_of result ≡ row (allocation_of crowd.now bundles.now) student.0 }
{
    let place = usize::from(student.0);
    let menu = &crowd.menus[place];
    let own = utility(menu, &bundles[place]);
    let budget = crowd.budgets[place];
    let weights = weights_of(menu);
    let mut row = EnvyRow::empty();
    'others: for other in 0..bundles.len() {
        if other == place {
            continue;
        }
        let student = StudentNo(other as u16);
        let Some(seen) = sight(&weights, own, student, &bundles[other]) else {
            continue;
        };
        row = row.with(seen, crowd.budgets[other].0 <= budget.0);
    }
    row
}
