// Values out of the fields of a line.
ghost use Rattle.std.specs.Prelude.{◌≡◌, ◌≢◌, ◌↔◌, ◌≤◌, ◌<◌, ◌++◌, ◌∷◌, [], ℕ, List, IsTrue, All, IfOk, IfSome, IfNone, map};
ghost use Rattle.std.specs.List.{join_with_byte};
ghost use Rattle.std.specs.Fmt.{decimal};
ghost use Rattle.bundle_rules.specs.{Bundles.sections_of, Ordinals.IsBundle};
ghost use Rattle.proof_tree.specs.Alphabets.{AreTreeBytes, is_tree_byte};
ghost use Rattle.market_certificate.specs.Publications.{IsBundleOf, IsSession};
ghost use Rattle.market_certificate.specs.{Tables.name_at, Texts.bundle_text, Views.seen};

use crate::reading::cuts::behind;
use crate::tables::TableNames;
use bundle_rules::Bundle;
use market_units::{MAX_COURSES, MAX_SESSIONS, NoMemory, SectionNo, read_number};
use std::alloc::Global;

/// The bundle that the bytes spell: names of sections in square brackets, in the order of the
/// catalogue, with a comma between each two. `None` where they spell none.
pub(crate) fn bundle_of(tables: &TableNames, bytes: &[u8]) -> Option<Bundle>
    ensures bundle { IfSome result
        (λ bundle. IsBundleOf (seen tables.now).sections (sections_of bundle)) }
    ensures text { IfSome result
        (λ bundle. bytes.now ≡ bundle_text (seen tables.now).sections (sections_of bundle)) }
    ensures none { IfNone result
        ((bundle : List ℕ) → IsBundleOf (seen tables.now).sections bundle
        → bytes.now ≢ bundle_text (seen tables.now).sections bundle) }
{
    let names = in_brackets(bytes)?;
    if names.is_empty() {
        return Some(Bundle::empty());
    }
    bundle_of_names(tables, names)
}

// What stands between brackets.
fn in_brackets(bytes: &[u8]) -> Option<&[u8]>
    ensures some { IfSome result (λ inner. bytes.now ≡ 91 ∷ (inner.now ++ 93 ∷ [])) }
    ensures none { IfNone result ((inner : List ℕ) → bytes.now ≢ 91 ∷ (inner ++ 93 ∷ [])) }
{
    let rest = behind(bytes, b"[")?;
    rest.strip_suffix(b"]")
}

// The bundle of the sections that these names name, of which there is at least one.
fn bundle_of_names(tables: &TableNames, names: &[u8]) -> Option<Bundle>
    requires { names.now ≢ [] }
    ensures bundle { IfSome result
        (λ bundle. IsBundleOf (seen tables.now).sections (sections_of bundle)) }
    ensures text { IfSome result
        (λ bundle. names.now
        ≡ join_with_byte 44 (map (name_at (seen tables.now).sections) (sections_of bundle))) }
    ensures none { IfNone result
        ((bundle : List ℕ) → IsBundleOf (seen tables.now).sections bundle
        → names.now ≢ join_with_byte 44 (map (name_at (seen tables.now).sections) bundle)) }
{
    let mut bundle = Bundle::empty();
    'names: for name in names.split(|byte| *byte == b',') {
        let section = tables.section(name)?;
        bundle = one_more(bundle, section)?;
    }
    Some(bundle)
}

// The bundle with one more section, where it may have it.
fn one_more(bundle: Bundle, section: SectionNo) -> Option<Bundle>
    ensures more { IfSome result (λ more. sections_of more ≡ sections_of bundle ++ section.0 ∷ []) }
    ensures none { IfNone result (¬ IsBundle (sections_of bundle ++ section.0 ∷ [])) }
{
    if bundle.sections().len() == usize::from(MAX_COURSES) || !bundle.is_below(section) {
        return None;
    }
    Some(bundle.with(section))
}

/// Whether the bytes could be a tree: there is at least one, and each is a sign of trees. Whether
/// they are the tree of a bundle is not looked at.
pub(crate) fn is_tree(bytes: &[u8]) -> bool
    ensures { IsTrue result ↔ AreTreeBytes bytes.now }
{
    !bytes.is_empty() && bytes.iter().all(|byte| is_tree_byte(*byte))
}

fn is_tree_byte(byte: u8) -> bool
    ensures { result ≡ is_tree_byte byte }
{
    byte.is_ascii_digit()
        || byte == b'*'
        || byte == b'n'
        || byte == b'b'
        || byte == b'c'
        || byte == b'm'
        || byte == b'+'
        || byte == b'-'
}

// The number of a session that the bytes spell.
fn session_of(bytes: &[u8]) -> Option<u8>
    ensures range { IfSome result IsSession }
    ensures spelled { IfSome result (λ session. bytes.now ≡ decimal session) }
    ensures none { IfNone result ((session : ℕ) → IsSession session → bytes.now ≢ decimal session) }
{
    let session = read_number(bytes, u64::from(MAX_SESSIONS))?;
    if session == 0 {
        return None;
    }
    Some(session as u8)
}

/// The numbers of sessions, from 1 to 64, that the bytes spell with a space between each two.
/// `None` where they spell no such list, or an empty one.
pub(crate) fn sessions_of(alloc: Global, bytes: &[u8]) -> Result<Option<Vec<u8>>, NoMemory>
    ensures range { IfOk result (λ read. IfSome read (λ order. All IsSession order.items)) }
    ensures spelled { IfOk result
        (λ read. IfSome read (λ order. bytes.now ≡ join_with_byte 32 (map decimal order.items))) }
    ensures some { IfOk result (λ read. IfSome read (λ order. order.items ≢ [])) }
    ensures none { IfOk result
        (λ read. IfNone read
        ((order : List ℕ) → order ≢ [] → All IsSession order
        → bytes.now ≢ join_with_byte 32 (map decimal order))) }
{
    let mut order = Vec::new(alloc);
    'words: for word in bytes.split(|byte| *byte == b' ') {
        let Some(session) = session_of(word) else {
            return Ok(None);
        };
        order.push(session)?;
    }
    Ok(Some(order))
}
