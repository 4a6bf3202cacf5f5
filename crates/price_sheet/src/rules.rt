// The columns of a price sheet.
ghost use Rattle.std.specs.Prelude.{◌≡◌, ◌≤◌};
ghost use Rattle.market_units.specs.declared.limits.TheConstants.{MAX_PRICE};
ghost use Rattle.course_catalog.specs.Sections.{section_names};
ghost use Rattle.price_sheet.specs.Sheets.{price_rules};

use crate::PriceRefusal;
use crate::entry::Entry;
use course_catalog::Catalog;
use csv::ByteRecord;
use market_units::{MAX_PRICE, Name};
use table_records::{Fault, Table, number_in};

/// The rules of a price sheet's records, for a catalogue.
#[derive(Drop)]
pub(crate) struct PriceRules<'a> {
    pub catalog: &'a Catalog,
}

impl Table for PriceRules<'_> {
    type Row = Entry;

    type Refusal = PriceRefusal;

    ghost rules = { λ table. price_rules (section_names table.catalog.now.sections) };

    ghost name_of = { λ row. row.section };

    ghost is_row = { λ _ row. row.price ≤ MAX_PRICE };

    fn headers(&self) -> &[&[&[u8]]] {
        &[&[b"section", b"price"]]
    }

    fn most(&self) -> Option<(usize, PriceRefusal)> {
        None
    }

    fn knows(&self, name: &Name) -> bool {
        self.catalog.find(name).is_some()
    }

    fn refuse(&self, fault: Fault) -> PriceRefusal {
        match fault {
            Fault::Header => PriceRefusal::Header,
            Fault::Fields { row } => PriceRefusal::Fields { row },
            Fault::Name { row } => PriceRefusal::Name { row, column: 1 },
            Fault::Repeated { row, earlier } => PriceRefusal::Repeated { row, earlier },
        }
    }

    fn read_row(
        &self,
        _version: usize,
        row: u32,
        name: Name,
        fields: &ByteRecord,
    ) -> Result<Entry, PriceRefusal> {
        let price = number_in(fields, 2, u64::from(MAX_PRICE)).ok_or(PriceRefusal::Number {
            row,
            column: 2,
        })?;
        Ok(Entry::new(name, price as u32))
    }
}
