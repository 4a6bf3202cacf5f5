// Lines of a summary.
ghost use Rattle.std.specs.Prelude.{◌≡◌, ◌++◌, OnOk};
ghost use Rattle.std.specs.Fmt.{decimal, signed_decimal};
ghost use Rattle.market_run.specs.Summaries.{line};

use market_units::NoMemory;
use std::alloc::Global;

/// Puts a line behind the text: a word, a space, and a number that is spelled already.
pub(crate) fn put_line(text: &mut Vec<u8>, word: &[u8], number: &[u8]) -> Result<(), NoMemory>
    ensures { OnOk result (text.new.items ≡ text.old.items ++ line word.now number.now) }
{
    text.extend_from_slice(word)?;
    text.push(b' ')?;
    text.extend_from_slice(number)?;
    text.push(b'\n')?;
    Ok(())
}

/// Puts a line behind the text: a word, a space, and a count in decimal digits.
pub(crate) fn put_count(
    alloc: Global,
    text: &mut Vec<u8>,
    word: &[u8],
    count: u128,
) -> Result<(), NoMemory>
    ensures { OnOk result (text.new.items ≡ text.old.items ++ line word.now (decimal count)) }
{
    let number = format!(in alloc; "{count}")?;
    put_line(text, word, number.as_bytes())
}

/// Puts a line behind the text: a word, a space, and a number in decimal digits, with a minus sign
/// where it is below 0.
pub(crate) fn put_signed(
    alloc: Global,
    text: &mut Vec<u8>,
    word: &[u8],
    amount: i64,
) -> Result<(), NoMemory>
    ensures { OnOk result
        (text.new.items ≡ text.old.items ++ line word.now (signed_decimal amount)) }
{
    let number = format!(in alloc; "{amount}")?;
    put_line(text, word, number.as_bytes())
}
