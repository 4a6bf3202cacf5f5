// Prices from the bytes of a sheet.
ghost use Rattle.std.specs.Prelude.{◌≡◌, ◌≢◌, ◌<◌, ◌≤◌, ◌-◌, ◌^◌, All, length, map, Ok, Err, IfOk, IfErr};
ghost use Rattle.market_units.specs.{Name.name_bytes, declared.limits.TheConstants.MAX_PRICE};
ghost use Rattle.table_records.specs.Reading.{bytes_of};
ghost use Rattle.course_catalog.specs.Sections.{section_names};
ghost use Rattle.price_sheet.specs.Sheets.{price_in, prices_of};

use crate::PriceRefusal;
use crate::entry::Entry;
use crate::rules::PriceRules;
use course_catalog::Catalog;
use market_units::{Name, NoMemory, SectionNo, Tokens};
use std::alloc::Global;
use table_records::{End, Rows, place_of, read_rows};

// The rows of a sheet: each has a price of at most 1,000,001, and stands at the place of its name.
#[derive(Clone, Copy)]
struct Sheet<'a> {
    read: &'a Rows<Entry>,
    ghost names: { bytes_of read.now.names.keys ≡ map (λ row. row.section) read.now.rows.items },
    ghost each: { All (λ row. row.price ≤ MAX_PRICE) read.now.rows.items },
}

// The price of a section by its name.
fn price_of(sheet: &Sheet, name: &Name) -> Tokens
    ensures price { result.0 ≡ price_in sheet.now.read.now.rows.items (name_bytes name.now) }
    ensures range { result.0 ≤ MAX_PRICE }
{
    match place_of(&sheet.read.names, name) {
        Some(place) => Tokens(sheet.read.rows[place].price()),
        None => Tokens(0),
    }
}

// The price of each section of a catalogue, in its order.
fn in_order(alloc: Global, catalog: &Catalog, sheet: &Sheet) -> Result<Vec<Tokens>, NoMemory>
    ensures prices { IfOk result
        (λ prices. map (λ price. price.0) prices.items
        ≡ map (price_in sheet.now.read.now.rows.items) (section_names catalog.now.sections)) }
    ensures range { IfOk result (λ prices. All (λ price. price.0 ≤ MAX_PRICE) prices.items) }
{
    let mut prices = Vec::with_capacity(alloc, usize::from(catalog.len()))?;
    for section in 0..catalog.len() {
        prices.push(price_of(sheet, &catalog.name(SectionNo(section))))?;
    }
    Ok(prices)
}

/// Reads a price sheet: one price for each section of the catalogue, in its order, or the refusal
/// of the first bad record at its first bad column. A section without a record has price 0.
/// `NoMemory` comes where memory is wanted, and has no other cause.
pub fn read_prices(
    alloc: Global,
    catalog: &Catalog,
    bytes: &[u8],
) -> Result<Vec<Tokens>, PriceRefusal>
    requires { length bytes.now < 2 ^ 32 - 1 }
    ensures prices { IfOk result
        (λ prices. prices_of catalog.now.sections bytes.now
        ≡ Ok (map (λ price. price.0) prices.items)) }
    ensures range { IfOk result (λ prices. All (λ price. price.0 ≤ MAX_PRICE) prices.items) }
    ensures refused { IfErr result
        (λ refusal. refusal ≢ PriceRefusal.NoMemory
        → prices_of catalog.now.sections bytes.now ≡ Err refusal) }
{
    let read = match read_rows(alloc, &PriceRules { catalog }, bytes) {
        Ok(read) => read,
        Err(End::Refused(refusal)) => return Err(refusal),
        Err(End::NoMemory) => return Err(PriceRefusal::NoMemory),
    };
    match in_order(alloc, catalog, &Sheet { read: &read }) {
        Ok(prices) => Ok(prices),
        Err(NoMemory) => Err(PriceRefusal::NoMemory),
    }
}
