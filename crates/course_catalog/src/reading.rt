// A catalogue out of its bytes.
ghost use Rattle.std.specs.Prelude.{◌≡◌, ◌<◌, ◌-◌, ◌^◌, IfOk, IfErr, Ok, length};
ghost use Rattle.course_catalog.specs.{Reading.catalog_of, Refusal.TellsRefusal};

use crate::rules::CatalogTable;
use crate::{Catalog, CatalogRefusal};
use std::alloc::Global;
use table_records::{End, read_rows};

/// Reads a catalogue: its version, which is that of its header, and its sections; or why the first
/// bad record is refused, at its first bad column. The reading stops there.
pub fn read_catalog(alloc: Global, bytes: &[u8]) -> Result<Catalog, CatalogRefusal>
    requires { length bytes.now < 2 ^ 32 - 1 }
    ensures read { IfOk result (λ catalog. catalog_of bytes.now ≡ Ok catalog) }
    ensures refused { IfErr result (TellsRefusal (catalog_of bytes.now)) }
{
    let rows = match read_rows(alloc, &CatalogTable, bytes) {
        Ok(rows) => rows,
        Err(End::Refused(refusal)) => return Err(refusal),
        Err(End::NoMemory) => return Err(CatalogRefusal::NoMemory),
    };
    match Catalog::of(alloc, rows) {
        Ok(catalog) => Ok(catalog),
        Err(_) => Err(CatalogRefusal::NoMemory),
    }
}
