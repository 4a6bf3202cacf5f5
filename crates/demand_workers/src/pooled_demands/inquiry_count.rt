// How many students were asked.
ghost use Rattle.std.specs.Prelude.{◌≡◌};
ghost use Rattle.demand_api.specs.Asking.{RoseBy};
ghost use Rattle.price_board.specs.Terms.{task_count};

use price_board::Answers;
use std::marker::Model;

/// How many students were asked: the tasks of all boards that were counted here. It is zero where
/// demands are made, and from then on only a closed board's answers change it, which let it grow.
/// Nobody else can make a count or copy one, so there is no second one to put in its place: but for
/// that of other demands, with a pool of their own. Contracts see it as a number.
#[derive(Drop)]
pub struct InquiryCount {
    count: u64,
}

impl Model for InquiryCount {
    ghost use Rattle.std.specs.Prelude.{ℕ};

    ghost Value = { ℕ };

    ghost view = { λ inquiries. inquiries.count };
}

impl InquiryCount {
    /// Nobody was asked. Only who makes demands can say so.
    pub(super) fn none() -> InquiryCount
        ensures { result ≡ 0 }
    {
        InquiryCount { count: 0 }
    }

    /// Counts each task of a closed board. Beyond the greatest `u64` it stands.
    pub(crate) fn add(&mut self, answers: &Answers)
        ensures { RoseBy (task_count answers.now.terms) self.old self.new }
    {
        self.count = self.count.saturating_add(u64::from(answers.count()));
    }
}
