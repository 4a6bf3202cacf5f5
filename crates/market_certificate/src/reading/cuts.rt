// Parts cut off the front of bytes.
ghost use Rattle.std.specs.Prelude.{◌≡◌, ◌≢◌, ◌==◌, ◌++◌, ◌∷◌, ℕ, List, IfSome, IfNone};
ghost use Rattle.std.specs.List.{position};
ghost use Rattle.market_certificate.specs.Lines.{Lacks};

/// The bytes before and behind the first one of this value; `None` where the value does not occur.
#[tactic(auto, using(crate::proofs::Places::place_found, crate::proofs::Places::place_none))]
pub(crate) fn cut(bytes: &[u8], stop: u8) -> Option<(&[u8], &[u8])>
    ensures found { IfSome result (λ parts. bytes.now ≡ parts.0.now ++ stop ∷ parts.1.now) }
    ensures first { IfSome result (λ parts. Lacks stop parts.0.now) }
    ensures none { IfNone result (Lacks stop bytes.now) }
{
    match place_of(bytes, stop) {
        Some(end) => Some((&bytes[..end], &bytes[end + 1..])),
        None => None,
    }
}

fn place_of(bytes: &[u8], stop: u8) -> Option<usize>
    ensures { result ≡ position (λ byte. byte == stop) bytes.now }
{
    bytes.iter().position(|byte| *byte == stop)
}

/// The bytes behind this beginning; `None` where the bytes begin otherwise.
pub(crate) fn behind<'a>(bytes: &'a [u8], front: &[u8]) -> Option<&'a [u8]>
    ensures some { IfSome result (λ rest. bytes.now ≡ front.now ++ rest.now) }
    ensures none { IfNone result ((rest : List ℕ) → bytes.now ≢ front.now ++ rest) }
{
    bytes.strip_prefix(front)
}

/// The bytes behind this word and one space; `None` where the bytes begin otherwise.
pub(crate) fn behind_field<'a>(bytes: &'a [u8], field: &[u8]) -> Option<&'a [u8]>
    ensures some { IfSome result (λ rest. bytes.now ≡ field.now ++ 32 ∷ rest.now) }
    ensures none { IfNone result ((rest : List ℕ) → bytes.now ≢ field.now ++ 32 ∷ rest) }
{
    let rest = behind(bytes, field)?;
    match behind(rest, b" ") {
        Some(more) => Some(more),
        None => None,
    }
}
