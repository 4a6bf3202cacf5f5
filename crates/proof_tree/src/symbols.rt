// The symbols of trees: read from the front of a text, and written.
ghost use Rattle.std.specs.Prelude.{◌≡◌, ◌≢◌, ◌<◌, ◌≤◌, ◌↔◌, ◌++◌, ◌∷◌, [], ℕ, List, None, Some, IsTrue, IfSome, IfNone, take};
ghost use Rattle.std.specs.Fmt.{decimal};
ghost use Rattle.bundle_bounds.specs.declared.nodes.Leaf.{Leaf};
ghost use Rattle.proof_tree.specs.Spellings.{bytes_of};
ghost use Rattle.proof_tree.specs.Texts.{IsDigit, NoDigitFirst, IsShort, Stands, leaf_text, number_of, symbol};
ghost use Rattle.proof_tree.specs.declared.signs.Sign.{Sign};
ghost use Rattle.proof_tree.specs.declared.signs.Sign.TheVariants.{Pruned};

use crate::signs::Sign;
use crate::symbol_bytes::Symbol;
use bundle_bounds::Leaf;

// Whether the byte is a decimal digit.
fn is_digit(byte: u8) -> bool
    ensures { IsTrue result ↔ IsDigit byte }
{
    byte >= b'0' && byte <= b'9'
}

// Whether no digit stands first.
fn ends_here(text: &[u8]) -> bool
    ensures { IsTrue result ↔ NoDigitFirst text.now }
{
    match text {
        [] => true,
        [byte, ..] => !is_digit(*byte),
    }
}

// The number of one or two digits that stands first, and what is left: as many digits are taken as
// follow.
fn read_place(text: &[u8]) -> Option<(u8, &[u8])>
    ensures some { IfSome result
        (λ read. (text.now ≡ decimal read.0 ++ read.1.now) × (read.0 < 100)
        × NoDigitFirst read.1.now) }
    ensures none { IfNone result
        ((place : ℕ) (rest : List ℕ) → place < 100 → NoDigitFirst rest
        → text.now ≢ decimal place ++ rest) }
{
    match text {
        [] => None,
        [first, rest @ ..] => {
            if !is_digit(*first) {
                return None;
            }
            if ends_here(rest) {
                return Some((*first - b'0', rest));
            }
            if *first == b'0' {
                return None;
            }
            read_second(*first, rest)
        }
    }
}

// The number of two digits of which this is the first, where another one stands first in the text
// and no third one after it.
fn read_second(first: u8, text: &[u8]) -> Option<(u8, &[u8])>
    requires first { (49 ≤ first) × (first ≤ 57) }
    requires second { ¬ NoDigitFirst text.now }
    ensures some { IfSome result
        (λ read. (first ∷ text.now ≡ decimal read.0 ++ read.1.now) × (read.0 < 100)
        × NoDigitFirst read.1.now) }
    ensures none { IfNone result
        ((place : ℕ) (rest : List ℕ) → place < 100 → NoDigitFirst rest
        → first ∷ text.now ≢ decimal place ++ rest) }
{
    match text {
        [] => None,
        [second, rest @ ..] => {
            if !ends_here(rest) {
                return None;
            }
            if !is_digit(*second) {
                return None;
            }
            Some(((first - b'0') * 10 + (*second - b'0'), rest))
        }
    }
}

// The sign whose symbol is this byte alone.
fn single_sign(byte: u8) -> Option<Sign>
    ensures some { IfSome result (λ sign. (symbol sign ≡ byte ∷ []) × (number_of sign ≡ None)) }
    ensures none { IfNone result ((sign : Sign) → number_of sign ≡ None → symbol sign ≢ byte ∷ []) }
{
    match byte {
        b'*' => Some(Sign::Champion),
        b'x' => Some(Sign::Shut),
        b'n' => Some(Sign::Pruned(Leaf::Plain)),
        b'!' => Some(Sign::Forced),
        b'+' => Some(Sign::Open),
        b'-' => Some(Sign::Passed),
        _ => None,
    }
}

// The leaf with this letter and this number.
fn numbered_leaf(letter: u8, place: u8) -> Option<Leaf>
    ensures some { IfSome result
        (λ leaf. (leaf_text leaf ≡ letter ∷ decimal place)
        × (number_of (Pruned leaf) ≡ Some place)) }
    ensures none { IfNone result ((letter ≢ 98) × (letter ≢ 99) × (letter ≢ 109)) }
{
    match letter {
        b'b' => Some(Leaf::Budget(place)),
        b'c' => Some(Leaf::Credits(place)),
        b'm' => Some(Leaf::Number(place)),
        _ => None,
    }
}

/// The sign whose symbol stands first in the text, and what is left of the text behind it; `None`
/// where no symbol stands first.
pub(crate) fn read_symbol(text: &[u8]) -> Option<(Sign, &[u8])>
    ensures some { IfSome result (λ read. Stands read.0 text.now read.1.now) }
    ensures none { IfNone result ((sign : Sign) (rest : List ℕ) → ¬ Stands sign text.now rest) }
{
    match text {
        [] => None,
        [letter, rest @ ..] => {
            if let Some(sign) = single_sign(*letter) {
                return Some((sign, rest));
            }
            let (place, later) = read_place(rest)?;
            let leaf = numbered_leaf(*letter, place)?;
            Some((Sign::Pruned(leaf), later))
        }
    }
}

// The symbol of a leaf.
fn spell_leaf(leaf: Leaf) -> Symbol
    requires { IsShort (Pruned leaf) }
    ensures { bytes_of result ≡ leaf_text leaf }
{
    match leaf {
        Leaf::Plain => Symbol::single(b'n'),
        Leaf::Budget(place) => Symbol::numbered(b'b', place),
        Leaf::Credits(place) => Symbol::numbered(b'c', place),
        Leaf::Number(place) => Symbol::numbered(b'm', place),
    }
}

/// The symbol of a sign, as it stands in the text of a tree.
pub(crate) fn spell(sign: Sign) -> Symbol
    requires { IsShort sign }
    ensures { bytes_of result ≡ symbol sign }
{
    match sign {
        Sign::Champion => Symbol::single(b'*'),
        Sign::Shut => Symbol::single(b'x'),
        Sign::Pruned(leaf) => spell_leaf(leaf),
        Sign::Forced => Symbol::single(b'!'),
        Sign::Open => Symbol::single(b'+'),
        Sign::Passed => Symbol::single(b'-'),
    }
}
