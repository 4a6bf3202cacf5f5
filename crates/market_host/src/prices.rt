// The prices of a call.
ghost use Rattle.std.specs.Prelude.{◌≡◌, ◌≢◌, ◌<◌, ◌-◌, ◌^◌, Ok, Err, IfOk, IfErr, length, map};
ghost use Rattle.price_sheet.specs.Sheets.{prices_of};
ghost use Rattle.market_host.specs.{Reading.IsRefusal, Refusals.AreNoPrices};

use crate::Cause;
use crate::trouble::Trouble;
use course_catalog::Catalog;
use market_units::Tokens;
use price_sheet::{PriceRefusal, read_prices};
use std::alloc::Global;

// The header is row 1.
const HEADER_ROW: u32 = 1;

/// The prices of this catalogue's sections that the text of this input stands for, or its first
/// fault.
pub fn prices_in(
    alloc: Global,
    catalog: &Catalog,
    bytes: &[u8],
    input: u16,
) -> Result<Vec<Tokens>, Trouble>
    requires { length bytes.now < 2 ^ 32 - 1 }
    ensures read { IfOk result
        (λ prices. prices_of catalog.now.sections bytes.now
        ≡ Ok (map (λ price. price.0) prices.items)) }
    ensures refused { IfErr result (IsRefusal (AreNoPrices catalog.now.sections bytes.now) input) }
{
    match read_prices(alloc, catalog, bytes) {
        Ok(prices) => Ok(prices),
        Err(refusal) => Err(trouble_of(catalog, bytes, input, refusal)),
    }
}

// What is told of a refusal of these bytes.
fn trouble_of(_catalog: &Catalog, _bytes: &[u8], input: u16, refusal: PriceRefusal) -> Trouble
    requires { refusal ≢ PriceRefusal.NoMemory
        → prices_of _catalog.now.sections _bytes.now ≡ Err refusal }
    ensures { IsRefusal (AreNoPrices _catalog.now.sections _bytes.now) input result }
{
    let (row, cause) = match refusal {
        PriceRefusal::Header => (HEADER_ROW, Cause::Header),
        PriceRefusal::Fields { row } => (row, Cause::Fields),
        PriceRefusal::Name { row, column } => (row, Cause::Name { column }),
        PriceRefusal::Repeated { row, earlier } => (row, Cause::Repeated { earlier }),
        PriceRefusal::Number { row, column } => (row, Cause::Number { column }),
        PriceRefusal::NoMemory => return Trouble::OutOfMemory,
    };
    Trouble::Refused { input, row, cause }
}
