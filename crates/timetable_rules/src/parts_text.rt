// Parts of a term, out of their written form and shared by sections.
ghost use Rattle.std.specs.Prelude.{◌≡◌, ◌↔◌, IsTrue, IfSome, IfNone};
ghost use Rattle.timetable_rules.specs.Parts.{SharePart, SpellsParts, share_part, spelled_parts};
ghost use Rattle.timetable_rules.specs.declared.parts.Parts.{Parts};

use crate::Parts;

/// The parts of the term that the bytes spell: `1` is the first half, `2` the second, `12` both.
/// `None` for other bytes.
pub fn read_parts(bytes: &[u8]) -> Option<Parts>
    ensures value { result ≡ spelled_parts bytes.now }
    ensures read { IfSome result (SpellsParts bytes.now) }
    ensures none { IfNone result ((parts : Parts) → ¬ SpellsParts bytes.now parts) }
{
    match bytes {
        b"1" => Some(Parts::FIRST_HALF),
        b"2" => Some(Parts::SECOND_HALF),
        b"12" => Some(Parts::WHOLE_TERM),
        _ => None,
    }
}

/// Whether there is a part of the term in which both of two sections meet.
pub(crate) fn share_part(ones: Parts, others: Parts) -> bool
    ensures { result ≡ share_part ones others }
{
    (ones.first && others.first) || (ones.second && others.second)
}
