// What the records of a catalogue may be.
ghost use Rattle.std.specs.Prelude.{◌≡◌, ◌||◌, IsTrue, IfSome};
ghost use Rattle.csv.specs.Records.{fields_of};
ghost use Rattle.course_catalog.specs.{Catalog.IsListed, Reading.catalog_rules, Reading.parts_in};
ghost use Rattle.timetable_rules.specs.Parts.{whole_term};

use crate::CatalogRefusal;
use crate::rows::Row;
use csv::ByteRecord;
use market_units::{MAX_SEATS, MAX_SECTION_CREDITS, MAX_SECTIONS, Name};
use table_records::{Fault, Table, field_in, name_in, number_in};
use timetable_rules::{Parts, read_meetings, read_parts};

/// The table of a catalogue.
pub(crate) struct CatalogTable;

impl Table for CatalogTable {
    type Row = Row;

    type Refusal = CatalogRefusal;

    ghost rules = { λ _. catalog_rules };

    ghost name_of = { λ section. section.name };

    ghost is_row = { IsListed };

    fn headers(&self) -> &[&[&[u8]]] {
        &[
            &[b"section", b"course", b"seats", b"credits", b"meetings"],
            &[
                b"section",
                b"course",
                b"seats",
                b"credits",
                b"meetings",
                b"parts",
            ],
        ]
    }

    fn most(&self) -> Option<(usize, CatalogRefusal)> {
        Some((usize::from(MAX_SECTIONS), CatalogRefusal::TooMany))
    }

    fn knows(&self, _name: &Name) -> bool {
        true
    }

    fn refuse(&self, fault: Fault) -> CatalogRefusal {
        match fault {
            Fault::Header => CatalogRefusal::Header,
            Fault::Fields { row } => CatalogRefusal::Fields { row },
            Fault::Name { row } => CatalogRefusal::Name { row, column: 1 },
            Fault::Repeated { row, earlier } => CatalogRefusal::Repeated { row, earlier },
        }
    }

    fn read_row(
        &self,
        version: usize,
        row: u32,
        name: Name,
        fields: &ByteRecord,
    ) -> Result<Row, CatalogRefusal> {
        let course = name_in(fields, 2).ok_or(CatalogRefusal::Name { row, column: 2 })?;
        let seats = number_in(fields, 3, u64::from(MAX_SEATS)).ok_or(CatalogRefusal::Number {
            row,
            column: 3,
        })?;
        let credits = number_in(fields, 4, u64::from(MAX_SECTION_CREDITS)).ok_or(
            CatalogRefusal::Number { row, column: 4 },
        )?;
        let meetings = read_meetings(field_in(fields, 5)).ok_or(CatalogRefusal::Meetings { row })?;
        let parts = parts_in(version, fields).ok_or(CatalogRefusal::Parts { row })?;
        Ok(Row {
            name,
            course,
            seats: seats as u16,
            credits: credits as u16,
            meetings,
            parts,
        })
    }
}

// The parts of the term in which a row's section runs, in a table of this version.
fn parts_in(version: usize, fields: &ByteRecord) -> Option<Parts>
    ensures value { result ≡ parts_in version (fields_of fields.now) }
    ensures whole { IfSome result (λ parts. version ≡ 1 → parts ≡ whole_term) }
    ensures some { IfSome result (λ parts. IsTrue (parts.first || parts.second)) }
{
    if version == 1 {
        Some(Parts::WHOLE_TERM)
    } else {
        read_parts(field_in(fields, 6))
    }
}
