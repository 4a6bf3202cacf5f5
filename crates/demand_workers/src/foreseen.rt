// What is surveyed before counts are asked for.
ghost use Rattle.std.specs.Prelude.{◌≡◌, ◌<◌, ◌↔◌, IsTrue, length};
ghost use Rattle.std.specs.Arc.{arc_value};
ghost use Rattle.demand_workers.specs.{Foreseen.AreNext, Rounds.prices_of};

use crate::remembered::are_same;
use crate::survey::Survey;
use market_units::Tokens;

/// A survey of versions, of which the first so many were counted.
#[derive(Drop)]
pub(crate) struct Foreseen {
    pub survey: Survey,
    pub done: usize,
}

impl Foreseen {
    /// Whether the versions that come next are these.
    pub(crate) fn goes_on_with(&self, batch: &[Vec<Tokens>]) -> bool
        ensures { IsTrue result
            ↔ AreNext (prices_of (arc_value self.now.survey.found.inquiries.round).versions.items)
            self.now.done (prices_of batch.now) }
    {
        let versions: &[Vec<Tokens>] = self.survey.found.inquiries.versions();
        if self.done > versions.len() || versions.len() - self.done < batch.len() {
            return false;
        }
        for place in 0..batch.len() {
            if !are_same(&versions[self.done + place], &batch[place]) {
                return false;
            }
        }
        true
    }
}
