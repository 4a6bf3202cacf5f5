// Why a catalogue is refused.
use thiserror::Error;

/// The first bad record of a catalogue, and in it the first bad column. Rows are numbers of records
/// and columns are counted from 1; the header is row 1.
#[derive(Clone, Copy, PartialEq, Eq, Debug, Error)]
pub enum CatalogRefusal {
    /// The first record is no header of a catalogue, or there is none.
    #[error("header")]
    Header,
    /// The record has another number of fields than the header.
    #[error("row {row}: fields")]
    Fields { row: u32 },
    /// The column is no name.
    #[error("row {row}: name in column {column}")]
    Name { row: u32, column: u8 },
    /// The section has the name of an earlier row, the first of which is told.
    #[error("row {row}: repeats row {earlier}")]
    Repeated { row: u32, earlier: u32 },
    /// The column is no number in its range.
    #[error("row {row}: number in column {column}")]
    Number { row: u32, column: u8 },
    /// The fifth column spells no meetings.
    #[error("row {row}: meetings")]
    Meetings { row: u32 },
    /// The sixth column spells no parts of the term.
    #[error("row {row}: parts")]
    Parts { row: u32 },
    /// There are more than 400 sections.
    #[error("too many rows")]
    TooMany,
    /// Memory was wanted and not given.
    #[error("no memory")]
    NoMemory,
}
