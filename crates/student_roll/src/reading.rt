// A roll from its bytes.
ghost use Rattle.std.specs.Prelude.{◌≡◌, ◌≢◌, ◌<◌, ◌-◌, ◌^◌, length, Ok, Err, IfOk, IfErr};
ghost use Rattle.student_roll.specs.{Rolls.roll_of, Students.IsRoll};

use crate::rules::RollRules;
use crate::{Roll, RollRefusal};
use std::alloc::Global;
use table_records::{End, read_rows};

/// Reads a roll: its version, which is that of its header, and its students; or the refusal of the
/// first bad record at its first bad column. `NoMemory` comes where memory is wanted, and has no
/// other cause.
pub fn read_roll(alloc: Global, bytes: &[u8]) -> Result<Roll, RollRefusal>
    requires { length bytes.now < 2 ^ 32 - 1 }
    ensures read { IfOk result (λ roll. roll_of bytes.now ≡ Ok roll) }
    ensures roll { IfOk result IsRoll }
    ensures refused { IfErr result
        (λ refusal. refusal ≢ RollRefusal.NoMemory → roll_of bytes.now ≡ Err refusal) }
{
    match read_rows(alloc, &RollRules, bytes) {
        Ok(rows) => Ok(Roll::of_rows(rows)),
        Err(End::Refused(refusal)) => Err(refusal),
        Err(End::NoMemory) => Err(RollRefusal::NoMemory),
    }
}
