// The words that the process was started with. They are not told: this is the trusted edge.
ghost use Rattle.std.specs.Prelude.{None};

use crate::words::{Word, Words};
use std::env::{Env, FillError};

/// The arguments of the process behind its name. The name itself is not read, whatever bytes it
/// has.
#[derive(Clone, Copy)]
pub struct EnvWords<'e, E: Env> {
    env: &'e E,
}

impl<'e, E: Env> EnvWords<'e, E> {
    /// The words of this environment.
    pub fn new(env: &'e E) -> Self {
        EnvWords { env }
    }
}

impl<'e, E: Env> Words for EnvWords<'e, E> {
    ghost tells = { λ _. None };

    fn word(&self, number: usize, room: &mut [u8]) -> Word {
        // Argument 0 is the program's name.
        match self.env.arg(number.saturating_add(1), room) {
            Ok(count) => Word::Whole(count),
            Err(FillError::TooLong) => Word::TooLong,
            Err(FillError::NotPresent) => Word::Missing,
        }
    }
}
