// How far the passes of the aftermarket have come.
ghost use Rattle.std.specs.Prelude.{◌≡◌, ◌<◌, ◌+◌, ◌^◌, ℕ, false};
ghost use Rattle.market_certificate.specs.Publications.{Publication};
ghost use Rattle.certificate_checker.specs.Parts.{IsProgress, MadeChange};

// The number of whole passes, the place in the next one, whether it made a change so far, and
// whether some whole pass was without one.
#[derive(Clone, Copy)]
pub(crate) struct Progress {
    pub pass: u64,
    pub place: usize,
    pub changed: bool,
    pub over: bool,
}

impl Progress {
    /// How far the aftermarket has come before its first turn.
    pub(crate) fn start() -> Progress
        ensures { (students : ℕ) (p : Publication) → IsProgress students p 0 result }
    {
        Progress {
            pass: 0,
            place: 0,
            changed: false,
            over: false,
        }
    }

    /// How far it has come after one more turn, which made a change or none. A pass has as many
    /// turns as there are students.
    pub(crate) fn after_turn(self, students: usize, moved: bool) -> Progress
        requires place { self.place < students }
        requires passes { self.pass < 2 ^ 32 }
        requires goes_on { self.over ≡ false }
        ensures { (p : Publication) (turns : ℕ) → IsProgress students p turns self
            → MadeChange p turns moved → IsProgress students p (turns + 1) result }
    {
        let changed = self.changed | moved;
        if self.place + 1 < students {
            return Progress {
                pass: self.pass,
                place: self.place + 1,
                changed,
                over: false,
            };
        }
        Progress {
            pass: self.pass + 1,
            place: 0,
            changed: false,
            over: !changed,
        }
    }
}
