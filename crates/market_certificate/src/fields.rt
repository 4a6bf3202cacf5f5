// Numbers that may be negative.
ghost use Rattle.std.specs.Prelude.{◌≡◌, ◌++◌, ◌∷◌, OnOk};
ghost use Rattle.std.specs.Fmt.{signed_decimal};

use crate::put_field;
use market_units::NoMemory;
use std::alloc::Global;

/// Puts a space and the one spelling of a number that may be negative behind the text. The error is
/// want of memory.
pub fn put_signed_field(alloc: Global, text: &mut Vec<u8>, n: i64) -> Result<(), NoMemory>
    ensures { OnOk result (text.new.items ≡ text.old.items ++ 32 ∷ signed_decimal n) }
{
    // `put_number` has no sign, and the text behind which this is put takes memory anyway.
    let number = format!(in alloc; "{n}")?;
    put_field(text, number.as_bytes())
}
