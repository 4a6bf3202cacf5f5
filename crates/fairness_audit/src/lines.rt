// Single lines, written behind a text.
ghost use Rattle.std.specs.Prelude.{◌≡◌, ◌<◌, ◌++◌, ◌∷◌, [], ℕ, OnOk, IfSome, length, option_map};
ghost use Rattle.market_units.specs.declared.units.SectionNo.{SectionNo};
ghost use Rattle.market_certificate.specs.Lines.{joined};
ghost use Rattle.course_catalog.specs.Sections.{section_names};
ghost use Rattle.student_roll.specs.Students.{names_of};
ghost use Rattle.fairness_audit.specs.Texts.{IsSightAmong, counts_line, ending, first_lines, sight_line};
ghost use Rattle.fairness_audit.specs.Views.{seen_of};

use crate::counts::Counts;
use crate::row::Seen;
use course_catalog::Catalog;
use market_certificate::{put_bundle_field, put_field, put_number_field};
use market_units::{NoMemory, SectionNo};
use student_roll::Roll;

/// Puts a line of three counts behind the text: the word of the part, whose they are, and the
/// counts of lower envy, of higher envy, and of envy beyond one section.
pub(crate) fn put_counts(
    text: &mut Vec<u8>,
    part: &[u8],
    name: &[u8],
    counts: Counts,
) -> Result<(), NoMemory>
    ensures { OnOk result
        (text.new.items
        ≡ text.old.items
        ++ counts_line part.now name.now counts.lower counts.higher counts.beyond ++ 10
        ∷ []) }
{
    text.extend_from_slice(part)?;
    put_field(text, name)?;
    put_number_field(text, u64::from(counts.lower))?;
    put_number_field(text, u64::from(counts.higher))?;
    put_number_field(text, u64::from(counts.beyond))?;
    text.push(b'\n')?;
    Ok(())
}

/// Puts the line of the first student who is envied behind the text. Where nobody is, nothing is
/// put.
pub(crate) fn put_first(
    text: &mut Vec<u8>,
    catalog: &Catalog,
    roll: &Roll,
    first: Option<Seen>,
) -> Result<(), NoMemory>
    requires { IfSome (option_map seen_of first)
        (IsSightAmong (length roll.now.students) (length catalog.now.sections)) }
    ensures { OnOk result
        (text.new.items
        ≡ text.old.items
        ++ joined
        (first_lines (names_of roll.now.students) (section_names catalog.now.sections)
        (option_map seen_of first))) }
{
    match first {
        Some(seen) => put_sight(text, catalog, roll, &seen),
        None => Ok(()),
    }
}

// Puts the line of an envied student behind the text.
fn put_sight(
    text: &mut Vec<u8>,
    catalog: &Catalog,
    roll: &Roll,
    seen: &Seen,
) -> Result<(), NoMemory>
    requires { IsSightAmong (length roll.now.students) (length catalog.now.sections)
        (seen_of seen.now) }
    ensures { OnOk result
        (text.new.items
        ≡ text.old.items
        ++ joined
        (sight_line (names_of roll.now.students) (section_names catalog.now.sections)
        (seen_of seen.now)
        ∷ [])) }
{
    text.extend_from_slice(b"sees")?;
    put_field(text, roll.name(seen.student).bytes())?;
    put_bundle_field(text, catalog, &seen.bundle)?;
    put_ending(text, catalog, seen.without)?;
    text.push(b'\n')?;
    Ok(())
}

// Puts a space behind the text, and how the envy ends.
fn put_ending(
    text: &mut Vec<u8>,
    catalog: &Catalog,
    without: Option<SectionNo>,
) -> Result<(), NoMemory>
    requires { IfSome (option_map (λ (s : SectionNo). s.0) without)
        (λ s. s < length catalog.now.sections) }
    ensures { OnOk result
        (text.new.items
        ≡ text.old.items ++ 32
        ∷ ending (section_names catalog.now.sections)
        (option_map (λ (s : SectionNo). s.0) without)) }
{
    match without {
        Some(section) => {
            text.extend_from_slice(b" but for")?;
            put_field(text, catalog.name(section).bytes())
        }
        None => {
            text.extend_from_slice(b" beyond one")?;
            Ok(())
        }
    }
}
