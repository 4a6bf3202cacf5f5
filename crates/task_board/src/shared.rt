// The board as an object that workers share.
ghost use Rattle.task_board.specs.Shared.{is_sound, progress, progress_after, reply_to};

use crate::calls::{Call, Reply};
use crate::data::Progress;
use crate::state::BoardState;
use crate::tasks::Tasks;
use chronicle::Object;

impl<T: Tasks> Object for BoardState<T> {
    type Base = T::Terms;

    type State = Progress<T::Answer>;

    type Request = Call<T::Answer>;

    type Reply = Reply;

    ghost base = { λ board. board.terms };

    ghost state = { λ board. progress board.marks };

    ghost room = { λ board. board.room };

    ghost sound = { is_sound T.rules };

    ghost after = { progress_after T.rules };

    ghost reply = { reply_to T.rules };

    fn step(&mut self, seat: u16, request: Call<T::Answer>) -> Reply {
        self.use_room();
        match request {
            Call::Draw => Reply::Draw(self.draw(seat)),
            Call::Post { task, answer } => Reply::Post(self.post(seat, task, answer)),
        }
    }
}
