ghost use Rattle.std.specs.Prelude.{◌+◌, ◌^◌, ◌<◌, true};

use chronicle::Object;

/// Counts the steps that it took.
#[derive(Drop)]
pub struct Counter {
    pub steps: u64,
    pub room: u64,
    ghost fits: { steps + room < 2 ^ 64 },
}

impl Object for Counter {
    type Base = ();

    type State = u64;

    type Request = u64;

    type Reply = u64;

    ghost base = { λ _. tt };

    ghost state = { λ counter. counter.steps };

    ghost room = { λ counter. counter.room };

    ghost sound = { λ _ _. true };

    ghost after = { λ _ steps _ _. steps + 1 };

    ghost reply = { λ _ steps _ _. steps + 1 };

    fn step(&mut self, _seat: u16, _request: u64) -> u64 {
        self.room -= 1;
        self.steps += 1;
        self.steps
    }
}
