// The fields of a line, written behind a text.
ghost use Rattle.std.specs.Prelude.{◌≡◌, ◌==◌, ◌<◌, ◌++◌, ◌∷◌, [], ℕ, All, OnOk, cond, length, map, take};
ghost use Rattle.std.specs.Fmt.{decimal};
ghost use Rattle.std.specs.List.{flat_map};
ghost use Rattle.market_units.specs.Name.{name_bytes};
ghost use Rattle.bundle_rules.specs.Bundles.{sections_of};
ghost use Rattle.market_certificate.specs.Texts.{bundle_text};

use bundle_rules::Bundle;
use market_units::{Name, NoMemory, put_number};

/// Puts a space and the field behind the text. The error is want of memory.
pub fn put_field(text: &mut Vec<u8>, field: &[u8]) -> Result<(), NoMemory>
    ensures { OnOk result (text.new.items ≡ text.old.items ++ 32 ∷ field.now) }
{
    text.push(b' ')?;
    text.extend_from_slice(field)?;
    Ok(())
}

/// Puts a space and the number's one spelling behind the text. The error is want of memory.
pub fn put_number_field(text: &mut Vec<u8>, n: u64) -> Result<(), NoMemory>
    ensures { OnOk result (text.new.items ≡ text.old.items ++ 32 ∷ decimal n) }
{
    let mut room = [0; 20];
    let len = put_number(n, &mut room);
    put_field(text, &room[..len])
}

/// Puts a space and the bundle behind the text: the names of its sections in square brackets, with
/// a comma between each two.
pub(crate) fn put_bundle_field(
    text: &mut Vec<u8>,
    sections: &[Name],
    bundle: &Bundle,
) -> Result<(), NoMemory>
    requires { All (λ section. section < length sections.now) (sections_of bundle.now) }
    ensures { OnOk result
        (text.new.items
        ≡ text.old.items ++ 32
        ∷ bundle_text (map name_bytes sections.now) (sections_of bundle.now)) }
{
    text.extend_from_slice(b" [")?;
    'sections: for (place, section) in bundle.sections().iter().enumerate() {
        put_comma_behind(text, place)?;
        text.extend_from_slice(sections[usize::from(section.0)].bytes())?;
    }
    text.push(b']')?;
    Ok(())
}

/// Puts a comma behind the text where that many names are there already, and at least one.
pub(crate) fn put_comma_behind(text: &mut Vec<u8>, names: usize) -> Result<(), NoMemory>
    ensures { OnOk result (text.new.items ≡ text.old.items ++ cond (names == 0) [] (44 ∷ [])) }
{
    if names > 0 {
        text.push(b',')?;
    }
    Ok(())
}

/// Puts a space and the number in decimal digits behind the text, for each of the numbers.
pub(crate) fn put_number_fields(text: &mut Vec<u8>, numbers: &[u8]) -> Result<(), NoMemory>
    ensures { OnOk result
        (text.new.items ≡ text.old.items ++ flat_map (λ n. 32 ∷ decimal n) numbers.now) }
{
    'numbers: for n in numbers {
        put_number_field(text, u64::from(*n))?;
    }
    Ok(())
}
