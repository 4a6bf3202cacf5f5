// Who is asked of those of whom something is remembered.
ghost use Rattle.std.specs.Prelude.{◌≡◌, ◌≤◌, [], All, IfOk, IsSome, length};
ghost use Rattle.std.specs.Arc.{arc_value};
ghost use Rattle.price_board.specs.Tasks.{IsTask};
ghost use Rattle.demand_workers.specs.Inquiries.{tasks_in};
ghost use Rattle.demand_workers.specs.Rounds.{AreVersionsFor, prices_of};
ghost use Rattle.demand_workers.specs.Views.{crowd_of};

use crate::remembered::Remembered;
use market_units::{NoMemory, Tokens};
use price_board::{Round, Task};
use std::alloc::Global;
use std::sync::Arc;

/// A round with a list of students of a crowd of which something is remembered.
#[derive(Drop)]
pub struct Inquiries {
    pub remembered: Arc<Remembered>,
    // The board and its workers share it.
    pub round: Arc<Round>,
    /// How many best bundles a worker that is alone notes of a student that is asked at a raised
    /// price, 1 to 8.
    pub kept: usize,
    pub ghost priced: { AreVersionsFor (crowd_of (arc_value remembered)) (arc_value round).versions.items },
    pub ghost asked: { All (IsTask (crowd_of (arc_value remembered)) (length (arc_value round).versions.items)) (tasks_in (arc_value round)) },
    pub ghost listed: { IsSome (arc_value round).list },
    pub ghost plain: { (arc_value round).asks.items ≡ [] },
    pub ghost some: { (1 ≤ kept) × (kept ≤ 8) },
}

impl Inquiries {
    /// These tasks at these versions, of what is remembered. The only error is that memory was not
    /// given.
    pub(crate) fn of(
        alloc: Global,
        remembered: &Arc<Remembered>,
        versions: Vec<Vec<Tokens>>,
        list: Vec<Task>,
        kept: usize,
    ) -> Result<Inquiries, NoMemory>
        requires priced { AreVersionsFor (crowd_of (arc_value remembered.now)) versions.items }
        requires asked { All (IsTask (crowd_of (arc_value remembered.now)) (length versions.items))
            list.items }
        requires some { (1 ≤ kept) × (kept ≤ 8) }
        ensures remembered { IfOk result
            (λ inquiries. arc_value inquiries.remembered ≡ arc_value remembered.now) }
        ensures versions { IfOk result
            (λ inquiries. (arc_value inquiries.round).versions.items ≡ versions.items) }
        ensures list { IfOk result (λ inquiries. tasks_in (arc_value inquiries.round) ≡ list.items) }
        ensures kept { IfOk result (λ inquiries. inquiries.kept ≡ kept) }
    {
        let round = Round {
            versions,
            asks: Vec::new(alloc),
            list: Some(list),
        };
        Ok(Inquiries {
            remembered: Arc::try_clone(remembered)?,
            round: Arc::new(alloc, round)?,
            kept,
        })
    }

    /// The prices of each version.
    pub(crate) fn versions(&self) -> &[Vec<Tokens>]
        ensures { result.now ≡ (arc_value self.now.round).versions.items }
    {
        let round: &Round = &self.round;
        &round.versions
    }

    /// The students, each at one of the versions.
    pub(crate) fn list(&self) -> &[Task]
        ensures { result.now ≡ tasks_in (arc_value self.now.round) }
    {
        let round: &Round = &self.round;
        match &round.list {
            Some(list) => list,
            None => unreachable!(),
        }
    }
}

/// Copies of these vectors of prices. The only error is that memory was not given.
pub(crate) fn copies_of(
    alloc: Global,
    versions: &[Vec<Tokens>],
) -> Result<Vec<Vec<Tokens>>, NoMemory>
    ensures { IfOk result (λ copies. prices_of copies.items ≡ prices_of versions.now) }
{
    let mut copies = Vec::with_capacity(alloc, versions.len())?;
    for version in versions {
        let copy = version.to_vec(alloc)?;
        copies.push(copy)?;
    }
    Ok(copies)
}
