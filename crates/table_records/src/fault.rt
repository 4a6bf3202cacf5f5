// Why a table is refused, as far as every table knows.

/// What is wrong with a record before its second column. Rows are the numbers of records, from 1.
#[derive(Clone, Copy, Debug, PartialEq, Eq)]
pub enum Fault {
    /// The first record is not the header, or there is none.
    Header,
    /// The record of this row has another number of fields than the header.
    Fields { row: u32 },
    /// The first column of this row is no name that a row may have.
    Name { row: u32 },
    /// This row has the name of an earlier one, the first of which is told.
    Repeated { row: u32, earlier: u32 },
}

/// Why a reading ended before the table did.
#[derive(Clone, Copy, Debug, PartialEq, Eq)]
pub enum End<E> {
    /// Memory was wanted and not given.
    NoMemory,
    /// A record is refused.
    Refused(E),
}
