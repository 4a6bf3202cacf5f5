ghost use Rattle.std.specs.Prelude.{◌+◌, ◌*◌, ◌^◌, ◌<◌, nat_lt};

use chronicle::Object;
use std::hint;

/// A sum, to which requests below 1,000 are added. The reply is the sum after it.
#[derive(Drop)]
pub struct Adder {
    pub sum: u64,
    pub room: u64,
    /// How long a step takes, in looks of a thread that waits.
    pub pause: u32,
    ghost fits: { sum + 1000 * room < 2 ^ 64 },
}

impl Object for Adder {
    type Base = ();

    type State = u64;

    type Request = u32;

    type Reply = u64;

    ghost base = { λ _. tt };

    ghost state = { λ adder. adder.sum };

    ghost room = { λ adder. adder.room };

    ghost sound = { λ _ n. nat_lt n 1000 };

    ghost after = { λ _ sum _ n. sum + n };

    ghost reply = { λ _ sum _ n. sum + n };

    fn step(&mut self, _seat: u16, request: u32) -> u64 {
        for _ in 0..self.pause {
            hint::spin_loop();
        }
        self.room -= 1;
        self.sum += u64::from(request);
        self.sum
    }
}
