// The desk as an object that sessions share.
ghost use Rattle.std.specs.Prelude.{ℕ, List};
ghost use Rattle.std.specs.Borrow.{ftrue};

use crate::command::HallCommand;
use crate::desk::HallDesk;
use crate::reply::HallReply;
use crate::rules::MarketRules;
use chronicle::Object;
use std::marker::Model;

/// What the steps of a desk change: the set of sections that each student holds, ascending, and the
/// students who wait for each section, the one who waits longest first. Contracts alone see it.
pub struct HallState {
    pub ghost held: { List (List ℕ) },
    pub ghost waiting: { List (List ℕ) },
}

impl Model for HallState {
    ghost also_owns = { λ _. ftrue };
}

impl Object for HallDesk {
    ghost use Rattle.dropadd_desk.specs.HallView.{market_of, state_of, room_of};
    ghost use Rattle.dropadd_desk.specs.Shared.{is_sound, state_after, reply_to};

    type Base = MarketRules;

    type State = HallState;

    type Request = HallCommand;

    type Reply = HallReply;

    ghost base = { market_of };

    ghost state = { state_of };

    ghost room = { room_of };

    ghost sound = { is_sound };

    ghost after = { state_after };

    ghost reply = { reply_to };

    // Every session may make every request.
    fn step(&mut self, _seat: u16, request: HallCommand) -> HallReply {
        self.take(request)
    }
}
