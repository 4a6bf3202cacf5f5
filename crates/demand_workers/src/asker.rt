// Who asks the students of a crowd, in rounds of workers.
ghost use Rattle.std.specs.Prelude.{◌≡◌, ◌<◌, ◌↔◌, [], ◌∷◌, IfOk, IfSome, IsTrue, None, length};
ghost use Rattle.std.specs.Arc.{arc_value};
ghost use Rattle.bundle_rules.specs.Demand.{price_in};
ghost use Rattle.demand_api.specs.Asking.{ArePricesFor, RoseAtMost, RoseBy};
ghost use Rattle.demand_api.specs.{Crowds.count, Views.data_of};
ghost use Rattle.price_board.specs.{Openings.IsAskOf, declared.terms.Terms.Terms};
ghost use Rattle.demand_workers.specs.Views.{crowd_of};

mod listing;
mod round;

use crate::pool::Pool;
use crate::pooled_demands::InquiryCount;
use crate::remembered::Remembered;
use crate::worker::Lent;
use demand_api::Crowd;
use market_edge::AnyGate;
use market_units::{NoMemory, SectionNo, SectionSet, Tokens};
use price_board::{Answers, Ask, Board, Round};
use round::work_and_close;
use std::alloc::Global;
use std::sync::{Arc, Wait};
use std::thread::Threads;

/// Who asks the students of a crowd, lent for a call: the crowd, the workers' pool, the gate that
/// they pass, and where memory comes from.
#[derive(Clone, Copy)]
pub(crate) struct Asker<'a, G> {
    pub alloc: Global,
    pub crowd: &'a Arc<Crowd>,
    pub pool: &'a Pool,
    pub gate: G,
}

impl Asker<'_, AnyGate<'_>> {
    /// What all workers find on a board where each student is a task, at these prices alone. All
    /// memory is taken before the first worker starts.
    pub(crate) fn ask_board<R: Threads + Wait + Sync>(
        &self,
        rt: &R,
        inquiries: &mut InquiryCount,
        remembered: Option<&Remembered>,
        prices: &[Tokens],
        ask: Ask,
    ) -> Result<Answers, NoMemory>
        requires same { IfSome remembered
            (λ memory. crowd_of memory.now ≡ data_of (arc_value self.now.crowd.now)) }
        requires prices { ArePricesFor (data_of (arc_value self.now.crowd.now)) prices.now }
        requires section { IsAskOf (arc_value self.now.crowd.now).sections ask }
        ensures inquiries { RoseAtMost (length (data_of (arc_value self.now.crowd.now)).students)
            inquiries.old inquiries.new }
        ensures counted { IfOk result
            (λ answers. RoseBy (length (data_of (arc_value self.now.crowd.now)).students)
            inquiries.old inquiries.new) }
        ensures terms { IfOk result
            (λ answers. answers.terms
            ≡ record {
              crowd = data_of (arc_value self.now.crowd.now);
              versions = prices.now ∷ [];
              asks = ask ∷ [];
              list = None;
            }) }
    {
        let version = prices.to_vec(self.alloc)?;
        let mut versions = Vec::with_capacity(self.alloc, 1)?;
        versions.push(version)?;
        let asks = vec![in self.alloc; ask; 1]?;
        let round = Round {
            versions,
            asks,
            list: None,
        };
        let round = Arc::new(self.alloc, round)?;
        let crowd = Arc::try_clone(self.crowd)?;
        let shared = Arc::try_clone(&round)?;
        let (board, seats) = Board::start(self.alloc, crowd, shared, self.pool.workers)?;
        let lent = Lent {
            crowd: self.crowd,
            round: &round,
            allowed: &SectionSet::full(self.crowd.sections),
            remembered,
            kept: 1,
        };
        let workspaces = self.pool.workspaces();
        let (answers, _) = work_and_close(
            rt, inquiries, board, seats, workspaces, &lent, self.gate,
        );
        Ok(answers)
    }

    /// Whether more than `limit` students take the section at these prices.
    pub(crate) fn is_exceeded<R: Threads + Wait + Sync>(
        &self,
        rt: &R,
        inquiries: &mut InquiryCount,
        remembered: Option<&Remembered>,
        prices: &[Tokens],
        section: SectionNo,
        limit: u32,
    ) -> Result<bool, NoMemory>
        requires same { IfSome remembered
            (λ memory. crowd_of memory.now ≡ data_of (arc_value self.now.crowd.now)) }
        requires prices { ArePricesFor (data_of (arc_value self.now.crowd.now)) prices.now }
        requires section { section.0 < (arc_value self.now.crowd.now).sections }
        ensures inquiries { RoseAtMost (length (data_of (arc_value self.now.crowd.now)).students)
            inquiries.old inquiries.new }
        ensures value { IfOk result
            (λ more. IsTrue more
            ↔ (limit
            < count (data_of (arc_value self.now.crowd.now)) (price_in prices.now) section.0)) }
    {
        let ask = Ask::Exceeds { section, limit };
        let answers = self.ask_board(rt, inquiries, remembered, prices, ask)?;
        match answers.exceeds(0) {
            Some(more) => Ok(more),
            None => unreachable!(),
        }
    }
}
