// Single lines, written behind a text.
ghost use Rattle.std.specs.Prelude.{◌≡◌, ◌<◌, ◌++◌, ◌∷◌, [], All, OnOk, length};
ghost use Rattle.market_units.specs.Name.{name_bytes};
ghost use Rattle.bundle_rules.specs.Bundles.{sections_of};
ghost use Rattle.course_catalog.specs.Sections.{section_names};
ghost use Rattle.explain_desk.specs.Texts.{best_line, limit_word, lost_line, NamesBelow, reason_line, tree_line};

use crate::{Limit, Reason};
use bundle_rules::Bundle;
use course_catalog::Catalog;
use market_certificate::{put_bundle_field, put_field, put_signed_field};
use market_units::{Name, NoMemory, SectionNo};
use std::alloc::Global;

/// Puts the first line of an explanation behind the text: the student, the section, and why the
/// student does not have it.
pub(crate) fn put_reason(
    text: &mut Vec<u8>,
    catalog: &Catalog,
    student: Name,
    section: SectionNo,
    reason: Reason,
) -> Result<(), NoMemory>
    requires section { section.0 < length catalog.now.sections }
    requires reason { NamesBelow (length catalog.now.sections) reason }
    ensures { OnOk result
        (text.new.items
        ≡ text.old.items
        ++ reason_line (section_names catalog.now.sections) (name_bytes student) section.0
        reason
        ++ 10 ∷ []) }
{
    text.extend_from_slice(student.bytes())?;
    put_field(text, catalog.name(section).bytes())?;
    match reason {
        Reason::Held => put_field(text, b"held")?,
        Reason::Unrated => put_field(text, b"unrated")?,
        Reason::Alone(limit) => put_fields(text, b"alone", word_of(limit))?,
        Reason::Clash(other) => put_fields(text, b"clash", catalog.name(other).bytes())?,
        Reason::Beside(limit) => put_fields(text, b"beside", word_of(limit))?,
        Reason::Less => put_field(text, b"less")?,
    }
    text.push(b'\n')?;
    Ok(())
}

// Puts two fields behind the text.
fn put_fields(text: &mut Vec<u8>, first: &[u8], second: &[u8]) -> Result<(), NoMemory>
    ensures { OnOk result (text.new.items ≡ text.old.items ++ 32 ∷ first.now ++ 32 ∷ second.now) }
{
    put_field(text, first)?;
    put_field(text, second)
}

// The limit as it is written.
fn word_of(limit: Limit) -> &'static [u8]
    ensures { result.now ≡ limit_word limit }
{
    match limit {
        Limit::Price => b"price",
        Limit::Credits => b"credits",
        Limit::Courses => b"courses",
    }
}

/// Puts the line of the best bundle with the section behind the text, and its utility.
pub(crate) fn put_best(
    alloc: Global,
    text: &mut Vec<u8>,
    catalog: &Catalog,
    bundle: &Bundle,
    worth: i64,
) -> Result<(), NoMemory>
    requires { All (λ s. s < length catalog.now.sections) (sections_of bundle.now) }
    ensures { OnOk result
        (text.new.items
        ≡ text.old.items
        ++ best_line (section_names catalog.now.sections) (sections_of bundle.now) worth
        ++ 10 ∷ []) }
{
    text.extend_from_slice(b"best")?;
    put_bundle_field(text, catalog, bundle)?;
    put_signed_field(alloc, text, worth)?;
    text.push(b'\n')?;
    Ok(())
}

/// Puts the line of what the student would lose with the section behind the text, in utility.
pub(crate) fn put_lost(alloc: Global, text: &mut Vec<u8>, lost: i64) -> Result<(), NoMemory>
    ensures { OnOk result (text.new.items ≡ text.old.items ++ lost_line lost ++ 10 ∷ []) }
{
    text.extend_from_slice(b"lost")?;
    put_signed_field(alloc, text, lost)?;
    text.push(b'\n')?;
    Ok(())
}

/// Puts the line of a tree behind the text.
pub(crate) fn put_tree(text: &mut Vec<u8>, tree: &[u8]) -> Result<(), NoMemory>
    ensures { OnOk result (text.new.items ≡ text.old.items ++ tree_line tree.now ++ 10 ∷ []) }
{
    text.extend_from_slice(b"tree")?;
    put_field(text, tree)?;
    text.push(b'\n')?;
    Ok(())
}
