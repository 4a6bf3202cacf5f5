// One input of a call that is read by itself.
ghost use Rattle.std.specs.Prelude.{◌≡◌, ◌<◌, ◌-◌, ◌^◌, List, ℕ, length, IfOk, IfErr};
ghost use Rattle.market_units.specs.declared.limits.TheConstants.{MAX_INPUT_BYTES};
ghost use Rattle.market_words.specs.{Kinds.Kind, Kinds.limit_of};
ghost use Rattle.market_host.specs.{Inputs.HasFault, Inputs.IsOfGrammar, Marks.without_mark};
ghost use Rattle.market_host.specs.{Reading.IsRefusal, declared.cause.Cause.Cause};

use crate::trouble::Trouble;
use std::alloc::Global;

/// What one input of a call says, whatever the others say: a catalogue, a roll or settings.
pub trait Input: Drop {
    /// The kind of the input.
    ghost kind: { Kind };

    /// It is what this text stands for.
    ghost is_said_by: { List ℕ → Self → Type 0 };

    /// What holds of all that is read.
    ghost is_sound: { Self → Type 0 };

    /// The text stands for nothing, and its first fault has this row and this cause.
    ghost is_faulty: { List ℕ → ℕ → Cause → Type 0 };

    /// What the text stands for, or its first fault, told of the input of this number.
    fn read_from(alloc: Global, bytes: &[u8], input: u16) -> Result<Self, Trouble>
        requires { length bytes.now < 2 ^ 32 - 1 }
        ensures said { IfOk result (is_said_by bytes.now) }
        ensures sound { IfOk result is_sound }
        ensures refused { IfErr result (IsRefusal (is_faulty bytes.now) input) };

    /// The limit of the kind is that of a table.
    ghost within: { limit_of kind ≡ MAX_INPUT_BYTES };

    /// A text that stands for something is of the kind's grammar, whatever inputs stand before.
    ghost grammar: { (earlier : List (List ℕ)) (text : List ℕ) (said : Self)
        → is_said_by text said → IsOfGrammar kind earlier text };

    /// A fault is one of the kind, whatever inputs stand before.
    ghost faults: { (earlier : List (List ℕ)) (text : List ℕ) (row : ℕ) (cause : Cause)
        → is_faulty text row cause → HasFault kind earlier row cause text };
}

/// The bytes behind one leading byte order mark.
pub fn without_mark(bytes: &[u8]) -> &[u8]
    ensures { result.now ≡ without_mark bytes.now }
{
    match bytes.strip_prefix(b"\xef\xbb\xbf") {
        Some(text) => text,
        None => bytes,
    }
}
