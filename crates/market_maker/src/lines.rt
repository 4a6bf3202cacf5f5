// Parts of lines, written behind a text.
ghost use Rattle.std.specs.Prelude.{◌≡◌, ◌<◌, [], ◌∷◌, ◌++◌, OnOk};
ghost use Rattle.std.specs.Fmt.{decimal, signed_decimal};
ghost use Rattle.timetable_rules.specs.Spelling.{clock, two_digits};

use market_units::{NoMemory, put_number};

/// Puts the number in decimal digits behind the text, without leading zeros.
pub(crate) fn put_decimal(text: &mut Vec<u8>, n: u64) -> Result<(), NoMemory>
    ensures { OnOk result (text.new.items ≡ text.old.items ++ decimal n) }
{
    let mut room = [0; 20];
    let len = put_number(n, &mut room);
    text.extend_from_slice(&room[..len])?;
    Ok(())
}

/// Puts the number in decimal digits behind the text, with a minus sign where it is below 0.
pub(crate) fn put_signed(text: &mut Vec<u8>, n: i8) -> Result<(), NoMemory>
    ensures { OnOk result (text.new.items ≡ text.old.items ++ signed_decimal n) }
{
    if n < 0 {
        text.push(b'-')?;
        return put_decimal(text, u64::from(n.unsigned_abs()));
    }
    put_decimal(text, u64::from(n.unsigned_abs()))
}

/// Puts a made name behind the text: a letter that tells what it names, and a number.
pub(crate) fn put_name(text: &mut Vec<u8>, letter: u8, number: u16) -> Result<(), NoMemory>
    ensures { OnOk result (text.new.items ≡ text.old.items ++ letter ∷ decimal number) }
{
    text.push(letter)?;
    put_decimal(text, u64::from(number))
}

/// Puts a space and a made name behind the text.
pub(crate) fn put_name_word(text: &mut Vec<u8>, letter: u8, number: u16) -> Result<(), NoMemory>
    ensures { OnOk result (text.new.items ≡ text.old.items ++ 32 ∷ letter ∷ decimal number) }
{
    text.push(b' ')?;
    put_name(text, letter, number)
}

/// Puts a made name and a comma behind the text, as a field of a table's row.
pub(crate) fn put_name_field(text: &mut Vec<u8>, letter: u8, number: u16) -> Result<(), NoMemory>
    ensures { OnOk result
        (text.new.items ≡ text.old.items ++ (letter ∷ decimal number) ++ 44 ∷ []) }
{
    put_name(text, letter, number)?;
    text.push(b',')?;
    Ok(())
}

/// Puts a number and a comma behind the text, as a field of a table's row.
pub(crate) fn put_number_field(text: &mut Vec<u8>, n: u16) -> Result<(), NoMemory>
    ensures { OnOk result (text.new.items ≡ text.old.items ++ decimal n ++ 44 ∷ []) }
{
    put_decimal(text, u64::from(n))?;
    text.push(b',')?;
    Ok(())
}

/// Puts a time of day, given in minutes after midnight, behind the text: two digits of the hour and
/// two of the minute.
pub(crate) fn put_clock(text: &mut Vec<u8>, minutes: u16) -> Result<(), NoMemory>
    requires { minutes < 1440 }
    ensures { OnOk result (text.new.items ≡ text.old.items ++ clock minutes) }
{
    put_two_digits(text, minutes / 60)?;
    put_two_digits(text, minutes % 60)
}

// Puts the number behind the text, with two digits.
fn put_two_digits(text: &mut Vec<u8>, n: u16) -> Result<(), NoMemory>
    requires { n < 100 }
    ensures { OnOk result (text.new.items ≡ text.old.items ++ two_digits n) }
{
    text.push(b'0' + (n / 10) as u8)?;
    text.push(b'0' + (n % 10) as u8)?;
    Ok(())
}
