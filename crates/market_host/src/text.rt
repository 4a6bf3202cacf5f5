// What `quote` prints.
ghost use Rattle.std.specs.Prelude.{◌≡◌, ◌<◌, ◌++◌, ℕ, All, [], ◌∷◌, map, length, IfOk, OnOk};
ghost use Rattle.std.specs.List.{join_with_byte};
ghost use Rattle.bundle_rules.specs.Ordinals.{ordinals};
ghost use Rattle.course_catalog.specs.Sections.{section_at};
ghost use Rattle.market_units.specs.Name.{name_bytes};
ghost use Rattle.market_host.specs.Quotes.{names_with_commas, quoted_text};

use course_catalog::Catalog;
use market_units::{Name, SectionNo};
use std::alloc::{AllocError, Global};

/// The two lines that tell a student's bundle and its utility.
pub fn text_of(
    alloc: Global,
    catalog: &Catalog,
    name: &Name,
    bundle: &[SectionNo],
    worth: i32,
) -> Result<Vec<u8>, AllocError>
    requires { All (λ section. section.0 < length catalog.now.sections) bundle.now }
    ensures { IfOk result
        (λ text. text.items
        ≡ quoted_text catalog.now.sections (name_bytes name.now) (ordinals bundle.now) worth) }
{
    let mut text = Vec::new(alloc);
    text.extend_from_slice(b"bundle ")?;
    text.extend_from_slice(name.bytes())?;
    text.extend_from_slice(b" [")?;
    put_names(&mut text, catalog, bundle)?;
    text.extend_from_slice(b"]\nutility ")?;
    text.extend_from_slice(format!(in alloc; "{worth}")?.as_bytes())?;
    text.extend_from_slice(b"\n")?;
    Ok(text)
}

// Puts the names of the sections behind the text, with commas between them.
fn put_names(
    text: &mut Vec<u8>,
    catalog: &Catalog,
    sections: &[SectionNo],
) -> Result<(), AllocError>
    requires { All (λ section. section.0 < length catalog.now.sections) sections.now }
    ensures { OnOk result
        (text.new.items
        ≡ text.old.items ++ names_with_commas catalog.now.sections (ordinals sections.now)) }
{
    match sections {
        [] => Ok(()),
        [section, more @ ..] => {
            put_name(text, catalog, *section)?;
            if !more.is_empty() {
                text.extend_from_slice(b",")?;
            }
            put_names(text, catalog, more)
        }
    }
}

// Puts the name of the section behind the text.
fn put_name(text: &mut Vec<u8>, catalog: &Catalog, section: SectionNo) -> Result<(), AllocError>
    requires { section.0 < length catalog.now.sections }
    ensures { OnOk result
        (text.new.items ≡ text.old.items ++ (section_at catalog.now.sections section.0).name) }
{
    text.extend_from_slice(catalog.name(section).bytes())
}
