// The catalogue of a call.
ghost use Rattle.std.specs.Prelude.{◌≡◌, Ok, refl, ⊤};
ghost use Rattle.course_catalog.specs.{Reading.catalog_of, Refusal.TellsRefusal};
ghost use Rattle.market_words.specs.Kinds as kinds;
ghost use Rattle.market_host.specs.{Reading.IsRefusal, Refusals.IsNoCatalog};

use crate::Cause;
use crate::input::Input;
use crate::trouble::Trouble;
use course_catalog::{Catalog, CatalogRefusal, read_catalog};
use market_units::MAX_SECTIONS;
use std::alloc::Global;

// The header is row 1, and a table has at most 400 sections behind it.
const HEADER_ROW: u32 = 1;

const SURPLUS_ROW: u32 = MAX_SECTIONS as u32 + 2;

impl Input for Catalog {
    ghost kind = { kinds.Catalog };

    ghost is_said_by = { λ text catalog. catalog_of text ≡ Ok catalog };

    ghost is_sound = { λ _. ⊤ };

    ghost is_faulty = { IsNoCatalog };

    fn read_from(alloc: Global, bytes: &[u8], input: u16) -> Result<Self, Trouble> {
        match read_catalog(alloc, bytes) {
            Ok(catalog) => Ok(catalog),
            Err(refusal) => Err(trouble_of(bytes, input, refusal)),
        }
    }

    ghost within = { refl };

    ghost grammar = { λ earlier text said is. (said, is) };

    ghost faults = { λ earlier text row cause is. is };
}

// What is told of a refusal of these bytes.
fn trouble_of(_bytes: &[u8], input: u16, refusal: CatalogRefusal) -> Trouble
    requires { TellsRefusal (catalog_of _bytes.now) refusal }
    ensures { IsRefusal (IsNoCatalog _bytes.now) input result }
{
    let (row, cause) = match refusal {
        CatalogRefusal::Header => (HEADER_ROW, Cause::Header),
        CatalogRefusal::Fields { row } => (row, Cause::Fields),
        CatalogRefusal::Name { row, column } => (row, Cause::Name { column }),
        CatalogRefusal::Repeated { row, earlier } => (row, Cause::Repeated { earlier }),
        CatalogRefusal::Number { row, column } => (row, Cause::Number { column }),
        CatalogRefusal::Meetings { row } => (row, Cause::Meetings),
        CatalogRefusal::Parts { row } => (row, Cause::Parts),
        CatalogRefusal::TooMany => (SURPLUS_ROW, Cause::TooMany),
        CatalogRefusal::NoMemory => return Trouble::OutOfMemory,
    };
    Trouble::Refused { input, row, cause }
}
