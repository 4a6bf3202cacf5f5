// Bundles by the names of their sections.
ghost use Rattle.std.specs.Prelude.{◌≡◌, ◌<◌, ◌++◌, ◌∷◌, All, OnOk, length};
ghost use Rattle.bundle_rules.specs.Bundles.{sections_of};
ghost use Rattle.course_catalog.specs.Sections.{section_names};
ghost use Rattle.market_certificate.specs.Texts.{bundle_text};

use crate::writing::put_comma_behind;
use bundle_rules::Bundle;
use course_catalog::Catalog;
use market_units::NoMemory;

/// Puts a space and the bundle behind the text: the names of its sections, which are in the
/// catalogue, with one comma between each two, in brackets. The error is want of memory.
pub fn put_bundle_field(
    text: &mut Vec<u8>,
    catalog: &Catalog,
    bundle: &Bundle,
) -> Result<(), NoMemory>
    requires { All (λ s. s < length catalog.now.sections) (sections_of bundle.now) }
    ensures { OnOk result
        (text.new.items
        ≡ text.old.items ++ 32
        ∷ bundle_text (section_names catalog.now.sections) (sections_of bundle.now)) }
{
    text.extend_from_slice(b" [")?;
    'sections: for (place, section) in bundle.sections().iter().enumerate() {
        put_comma_behind(text, place)?;
        text.extend_from_slice(catalog.name(*section).bytes())?;
    }
    text.push(b']')?;
    Ok(())
}
