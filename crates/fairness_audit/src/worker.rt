// A worker of an audit.
ghost use Rattle.std.specs.Prelude.{◌≡◌, ◌<◌, true};
ghost use Rattle.std.specs.Coded.{codes};
ghost use Rattle.bundle_rules.specs.contracts.menu.Rated as rated;
ghost use Rattle.market_units.specs.declared.limits.TheConstants.{MAX_WORKERS};
ghost use Rattle.fairness_audit.specs.Allocations.{allocation_of, student_count};
ghost use Rattle.fairness_audit.specs.Asked.{audit_rules};

use crate::allocation::Allocated;
use crate::counting::count_envy;
use crate::row::EnvyRow;
use crate::tasks::AuditTasks;
use market_units::StudentNo;
use std::sync::Wait;
use task_board::{Board, BoardSeat, Posted, Worker};

/// A worker of an audit: its board, and the students with their bundles. A task's name is its
/// number, that of the student.
#[derive(Clone, Copy)]
pub(crate) struct AuditWorker<'a> {
    pub board: &'a Board<AuditTasks>,
    pub allocated: Allocated<'a>,
    pub ghost same: { board.now.base.allocation ≡ allocation_of allocated.crowd.now allocated.bundles.now } by { Prim.hlevel (codes, rated.the_row.coded) },
}

impl Worker<AuditTasks, u32> for AuditWorker<'_> {
    ghost board = { λ worker. worker.board.now };

    ghost seats = { λ _. MAX_WORKERS };

    ghost is_name = { λ terms student. student < student_count terms.allocation };

    ghost number = { λ student. student };

    ghost is_right = { λ terms student row. audit_rules.is_right terms student row ≡ true };

    fn draw<R: Wait>(&self, rt: &R, seat: &mut BoardSeat<AuditTasks>) -> Option<u32> {
        self.board.draw(rt, seat)
    }

    fn answer<R: Wait>(&mut self, _rt: &R, _seat: u16, student: u32) -> EnvyRow {
        let Allocated { crowd, bundles } = self.allocated;
        count_envy(crowd, bundles, StudentNo(student as u16))
    }

    fn post<R: Wait>(
        &self,
        rt: &R,
        seat: &mut BoardSeat<AuditTasks>,
        student: u32,
        row: EnvyRow,
    ) -> Posted {
        self.board.post(rt, seat, student, row)
    }
}
