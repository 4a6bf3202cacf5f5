// Why a price sheet is refused.

use thiserror::Error;

/// Why the bytes of a price sheet are refused: the first bad record, and in it the first bad
/// column. A row is the number of a record, the header's being 1.
#[derive(Clone, Copy, Debug, PartialEq, Eq, Error)]
pub enum PriceRefusal {
    /// The first record is not the header, or there is none.
    #[error("row 1: header")]
    Header,
    /// The record of this row has another number of fields than the header.
    #[error("row {row}: fields")]
    Fields { row: u32 },
    /// What stands in this column is no name of a section of the catalogue.
    #[error("row {row}: name in column {column}")]
    Name { row: u32, column: u8 },
    /// This row has the section of an earlier one, the first of which is told.
    #[error("row {row}: repeats row {earlier}")]
    Repeated { row: u32, earlier: u32 },
    /// What stands in this column is no number of the column's range.
    #[error("row {row}: number in column {column}")]
    Number { row: u32, column: u8 },
    /// Memory was wanted and not given.
    #[error("out of memory")]
    NoMemory,
}
