// The roll of a call.
ghost use Rattle.std.specs.Prelude.{◌≡◌, ◌≢◌, Ok, Err, refl, ⊤};
ghost use Rattle.student_roll.specs.Rolls.{roll_of};
ghost use Rattle.market_words.specs.Kinds as kinds;
ghost use Rattle.market_host.specs.{Reading.IsRefusal, Refusals.IsNoRoll};

use crate::Cause;
use crate::input::Input;
use crate::trouble::Trouble;
use market_units::MAX_STUDENTS;
use std::alloc::Global;
use student_roll::{Roll, RollRefusal, read_roll};

// The header is row 1, and a table has at most 2,000 students behind it.
const HEADER_ROW: u32 = 1;

const SURPLUS_ROW: u32 = MAX_STUDENTS as u32 + 2;

impl Input for Roll {
    ghost kind = { kinds.Roll };

    ghost is_said_by = { λ text roll. roll_of text ≡ Ok roll };

    ghost is_sound = { λ _. ⊤ };

    ghost is_faulty = { IsNoRoll };

    fn read_from(alloc: Global, bytes: &[u8], input: u16) -> Result<Self, Trouble> {
        match read_roll(alloc, bytes) {
            Ok(roll) => Ok(roll),
            Err(refusal) => Err(trouble_of(bytes, input, refusal)),
        }
    }

    ghost within = { refl };

    ghost grammar = { λ earlier text said is. (said, is) };

    ghost faults = { λ earlier text row cause is. is };
}

// What is told of a refusal of these bytes.
fn trouble_of(_bytes: &[u8], input: u16, refusal: RollRefusal) -> Trouble
    requires { refusal ≢ RollRefusal.NoMemory → roll_of _bytes.now ≡ Err refusal }
    ensures { IsRefusal (IsNoRoll _bytes.now) input result }
{
    let (row, cause) = match refusal {
        RollRefusal::Header => (HEADER_ROW, Cause::Header),
        RollRefusal::Fields { row } => (row, Cause::Fields),
        RollRefusal::Name { row, column } => (row, Cause::Name { column }),
        RollRefusal::Repeated { row, earlier } => (row, Cause::Repeated { earlier }),
        RollRefusal::Number { row, column } => (row, Cause::Number { column }),
        RollRefusal::TooMany => (SURPLUS_ROW, Cause::TooMany),
        RollRefusal::NoMemory => return Trouble::OutOfMemory,
    };
    Trouble::Refused { input, row, cause }
}
