// What an audit is in contracts.
ghost use Rattle.std.specs.Borrow.{ftrue};
ghost use Rattle.std.specs.Coded.{codes};
ghost use Rattle.bundle_rules.specs.contracts.menu.Rated as rated;
ghost use Rattle.fairness_audit.specs.Allocations.{Allocation};

use std::marker::Model;

/// What no posted row changes: the students and what each has. Contracts alone see it.
pub struct Terms {
    pub ghost allocation: { Allocation } by { Prim.hlevel (codes, rated.the_row.coded) },
}

impl Model for Terms {
    ghost also_owns = { λ _. ftrue };
}
