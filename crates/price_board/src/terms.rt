// What a round is in contracts.
ghost use Rattle.std.specs.Prelude.{List, Option};
ghost use Rattle.std.specs.Borrow.{ftrue};
ghost use Rattle.std.specs.Coded.{codes};
ghost use Rattle.bundle_rules.specs.contracts.menu.Rated as rated;
ghost use Rattle.demand_api.specs.Crowds.{CrowdData};
ghost use Rattle.market_units.specs.declared.units.Tokens.{Tokens};
ghost use Rattle.market_units.specs.contracts.units.Tokens as tokens;
ghost use Rattle.price_board.specs.declared.round.Ask.{Ask};
ghost use Rattle.price_board.specs.contracts.round.Ask as ask;
ghost use Rattle.price_board.specs.declared.round.Task.{Task};
ghost use Rattle.price_board.specs.contracts.round.Task as task;

use std::marker::Model;

/// What no step of a board changes: the crowd, the prices of each version, what is asked of it, and
/// the list of the tasks, if there is one. Contracts alone see it.
pub struct Terms {
    pub ghost crowd: { CrowdData } by { Prim.hlevel (codes, rated.the_row.coded) },
    pub ghost versions: { List (List Tokens) } by { Prim.hlevel (codes, tokens.the_row.coded) },
    pub ghost asks: { List Ask } by { Prim.hlevel (codes, ask.the_row.coded) },
    pub ghost list: { Option (List Task) } by { Prim.hlevel (codes, task.the_row.coded) },
}

impl Model for Terms {
    ghost also_owns = { λ _. ftrue };
}
