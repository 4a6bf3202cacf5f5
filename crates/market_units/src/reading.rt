// Names read from bytes.
ghost use Rattle.std.specs.Prelude.{◌≡◌, ◌↔◌, IsTrue, IfSome, IfNone, OnSome};
ghost use Rattle.market_units.specs.{Name.name_bytes, Names.IsName, Names.is_name_byte};

use crate::{MAX_NAME, Name};

/// The name that the bytes are, or `None` exactly where they are no name.
pub fn read_name(bytes: &[u8]) -> Option<Name>
    ensures valid { OnSome result (IsName bytes.now) }
    ensures name { IfSome result (λ name. name_bytes name ≡ bytes.now) }
    ensures none { IfNone result (¬ IsName bytes.now) }
{
    if is_name(bytes) {
        Some(Name::holding(bytes))
    } else {
        None
    }
}

fn is_name(bytes: &[u8]) -> bool
    ensures { IsTrue result ↔ IsName bytes.now }
{
    !bytes.is_empty() && bytes.len() <= MAX_NAME && bytes.iter().all(|byte| is_in_names(*byte))
}

fn is_in_names(byte: u8) -> bool
    ensures { result ≡ is_name_byte byte }
{
    byte.is_ascii_alphanumeric() || byte == b'-' || byte == b'_' || byte == b'.'
}
