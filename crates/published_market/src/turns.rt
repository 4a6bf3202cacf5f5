// Turns with their trees.
ghost use Rattle.std.specs.Prelude.{◌≡◌, ◌<◌, ◌≤◌, ◌^◌, IfOk, All, length, map};
ghost use Rattle.std.specs.List.{AllZip};
ghost use Rattle.bundle_rules.specs.Bundles.{sections_of};
ghost use Rattle.demand_api.specs.{Asking.ArePricesFor, Views.data_of};
ghost use Rattle.aftermarket_stage.specs.After.{turns_of};
ghost use Rattle.market_certificate.specs.Views.{turn_of as published_of};
ghost use Rattle.published_market.specs.Making.{HasTurnForm, IsBestTurn};
ghost use Rattle.published_market.specs.Turns.{IsPublishedTurn};

use crate::best::Best;
use crate::chosen::Chosen;
use crate::trees::{BestBundles, prove_all};
use crate::writers::Writers;
use aftermarket_stage::Turn;
use budget_draw::raised;
use demand_api::Crowd;
use market_certificate::{Proved, ProvedTurn};
use market_units::{MAX_RAISE, NoMemory, StudentNo, Tokens};
use std::alloc::Global;
use std::thread::Threads;

// The bundle with its tree as that of a turn.
fn of_turn(pass: u64, student: StudentNo, proved: Proved) -> ProvedTurn
    ensures turn { published_of result
        ≡ record {
          pass = pass;
          student = student.0;
          bundle = sections_of proved.bundle;
          tree = proved.tree.items;
        } }
    ensures pass { result.pass < 2 ^ 64 }
{
    ProvedTurn {
        pass,
        student,
        bundle: proved.bundle,
        tree: proved.tree,
    }
}

impl<'a> BestBundles for Chosen<'a> {
    ghost use Rattle.published_market.specs.Asked.{offer_chosen, turn_chosen};
    ghost use Rattle.published_market.specs.Shown.{IsTurnShown};

    type Shown = ProvedTurn;

    ghost count = { λ chosen. length chosen.turns.now };

    ghost offer = { offer_chosen };

    ghost bundle = { λ chosen place. (turn_chosen chosen place).bundle };

    ghost is_shown = { IsTurnShown };

    fn len(&self) -> usize {
        self.turns.len()
    }

    fn best(&self, place: usize) -> Best<'_> {
        let crowd = self.crowd;
        let turns = self.turns;
        let turn = &turns[place];
        let student = usize::from(turn.student.0);
        let menu = &crowd.menus[student];
        let budget = raised(crowd.budgets[student], self.raise);
        Best {
            menu,
            prices: self.prices,
            budget,
            allowed: &turn.allowed,
            bundle: &turn.bundle,
        }
    }

    fn show(&self, place: usize, proved: Proved) -> ProvedTurn {
        let turns = self.turns;
        let turn = &turns[place];
        of_turn(turn.pass, turn.student, proved)
    }
}

/// The turns in their order, each with the tree of its bundle.
pub(crate) fn prove_turns<R: Threads + Sync>(
    rt: &R,
    alloc: Global,
    writers: Writers,
    crowd: &Crowd,
    prices: &[Tokens],
    raise: u8,
    turns: &[Turn],
) -> Result<Vec<ProvedTurn>, NoMemory>
    requires prices { ArePricesFor (data_of crowd.now) prices.now }
    requires raise { raise ≤ MAX_RAISE }
    requires best { All (IsBestTurn (data_of crowd.now) prices.now raise) (turns_of turns.now) }
    ensures published { IfOk result
        (λ all. AllZip
        (IsPublishedTurn (data_of crowd.now) prices.now raise)
        (turns_of turns.now) (map published_of all.items)) }
    ensures form { IfOk result (λ all. All HasTurnForm (map published_of all.items)) }
{
    let chosen = Chosen {
        crowd,
        prices,
        raise,
        turns,
    };
    prove_all(rt, alloc, writers, &chosen)
}
