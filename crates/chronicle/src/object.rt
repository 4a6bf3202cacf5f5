ghost use Rattle.std.specs.Prelude.{◌≡◌, ◌<◌, ◌≤◌, ◌+◌, ℕ, Bool, true};

/// An object that threads share. Its own code is that of one thread.
pub trait Object: Drop {
    /// Plain data that no step changes.
    type Base;

    /// Plain data that steps change.
    type State;

    /// What a seat asks of the object.
    type Request: Copy + Drop;

    /// What the object answers.
    type Reply: Copy + Drop;

    /// The base of an object.
    ghost base: { Self → Self.Base };

    /// Its state.
    ghost state: { Self → Self.State };

    /// How many steps it can still take.
    ghost room: { Self → ℕ };

    /// Which requests may be made.
    ghost sound: { Self.Base → Self.Request → Bool };

    /// The state after the step of the seat with this number and this request.
    ghost after: { Self.Base → Self.State → ℕ → Self.Request → Self.State };

    /// The reply of that step.
    ghost reply: { Self.Base → Self.State → ℕ → Self.Request → Self.Reply };

    /// Takes one step for the seat with this number.
    fn step(&mut self, seat: u16, request: Self::Request) -> Self::Reply
        requires sound { sound (base self.old) request ≡ true }
        requires room { 1 ≤ room self.old }
        requires seat { seat < 65535 }
        ensures base { base self.new ≡ base self.old }
        ensures state { state self.new ≡ after (base self.old) (state self.old) seat request }
        ensures reply { result ≡ reply (base self.old) (state self.old) seat request }
        ensures room { room self.new + 1 ≡ room self.old };
}
