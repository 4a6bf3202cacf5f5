// Decimal numbers in bytes, each with one spelling: no sign and no leading zeros.
ghost use Rattle.std.specs.Prelude.{◌≡◌, ◌≢◌, ◌<◌, ◌≤◌, ◌^◌, ◌+◌, ◌*◌, ℕ, take, drop, IfSome, IfNone};
ghost use Rattle.std.specs.Option.{SomeIff};
ghost use Rattle.std.specs.Char.{digit_value};
ghost use Rattle.std.specs.Str.Parse.{IsNumeral, digits_value};
ghost use Rattle.std.specs.Fmt.{decimal};

/// The number at most `max` that the bytes spell, or `None` exactly where they spell none.
pub fn read_number(bytes: &[u8], max: u64) -> Option<u64>
    ensures within { IfSome result (λ n. n ≤ max) }
    ensures spelled { IfSome result (λ n. bytes.now ≡ decimal n) }
    ensures none { IfNone result ((n : ℕ) → n ≤ max → bytes.now ≢ decimal n) }
{
    let value = read_digits(bytes)?;
    if bytes[0] == b'0' && bytes.len() > 1 {
        return None;
    }
    if value > max {
        return None;
    }
    Some(value)
}

// The value of one digit or more, which may begin with zeros.
fn read_digits(bytes: &[u8]) -> Option<u64>
    ensures { SomeIff result (IsNumeral 10 bytes.now × (digits_value 10 bytes.now < 2 ^ 64))
        (digits_value 10 bytes.now) }
{
    if bytes.is_empty() {
        return None;
    }
    let mut value: u64 = 0;
    for byte in bytes {
        let digit = digit_of(*byte)?;
        value = next_value(value, digit)?;
    }
    Some(value)
}

fn digit_of(byte: u8) -> Option<u8>
    ensures { SomeIff result (digit_value byte < 10) (digit_value byte) }
{
    match byte {
        b'0'..=b'9' => Some(byte - b'0'),
        _ => None,
    }
}

fn next_value(value: u64, digit: u8) -> Option<u64>
    ensures { SomeIff result (value * 10 + digit < 2 ^ 64) (value * 10 + digit) }
{
    value.checked_mul(10)?.checked_add(u64::from(digit))
}

/// Writes the number's one spelling at the front of the room, and gives its length. The rest of the
/// room stays.
pub fn put_number(n: u64, room: &mut [u8; 20]) -> usize
    ensures fits { result ≤ 20 }
    ensures spelling { take result room.new ≡ decimal n }
    ensures rest { drop result room.new ≡ drop result room.old }
{
    if n < 10 {
        room[0] = b'0' + n as u8;
        return 1;
    }
    let place = put_number(n / 10, room);
    room[place] = b'0' + (n % 10) as u8;
    place + 1
}
