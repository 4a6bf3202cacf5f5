// The walk along the records of a table.
ghost use Rattle.std.specs.Prelude.{◌≡◌, ◌<◌, ◌≤◌, ◌^◌, ◌-◌, [], length, map, IfOk, IfErr, IfSome, Ok, All, true};
ghost use Rattle.std.specs.List.{IsDistinct};
ghost use Rattle.std.specs.Cmp.Lexicographic.{pointwise};
ghost use Rattle.std.specs.Str.{bytes_eq};
ghost use Rattle.csv.specs.{Reading.error_kind, Reading.stops_reader, Records.fields_of};
ghost use Rattle.table_records.specs.Reading.{IsVersion, Tells, bytes_of, reading, version_of};
ghost use Rattle.table_records.specs.{Records.records_of, Walk.HasGiven};

use crate::rows::take_record;
use crate::{End, Fault, Rows, Table, field_in};
use csv::{ByteRecord, ByteRecordsIntoIter, Error, ReaderBuilder};
use indexmap::IndexSet;
use std::alloc::Global;

// The records of a text, of which none was given yet.
fn records_in(alloc: Global, text: &[u8]) -> ByteRecordsIntoIter<&[u8]>
    ensures { HasGiven text.now result [] }
{
    ReaderBuilder::new()
        .has_headers(false)
        .flexible(true)
        .from_reader(alloc, text)
        .into_byte_records()
}

// The end where the reader failed for what lies under it. Bytes in memory can be read, so memory
// was wanted.
fn end_of_failure<E>(failure: &Error) -> End<E>
    requires { stops_reader (error_kind failure.now) ≡ true }
    ensures { result ≡ End.NoMemory }
{
    End::NoMemory
}

// Whether a record is this header.
fn is_header(fields: &ByteRecord, header: &[&[u8]]) -> bool
    ensures { result ≡ pointwise bytes_eq (fields_of fields.now) (map (λ f. f.now) header.now) }
{
    if fields.len() != header.len() {
        return false;
    }
    for (i, field) in header.iter().enumerate() {
        if field_in(fields, i + 1) != *field {
            return false;
        }
    }
    true
}

// The version of the header that a record is, if it is any.
fn version_of(fields: &ByteRecord, headers: &[&[&[u8]]]) -> Option<usize>
    ensures { result
        ≡ version_of (map (λ header. map (λ f. f.now) header.now) headers.now)
        (fields_of fields.now) }
{
    for (place, header) in headers.iter().enumerate() {
        if is_header(fields, header) {
            return Some(place + 1);
        }
    }
    None
}

/// Reads a table from a text: its version, which is that of the first of its headers that record 1
/// is, and every row; or the refusal of the first bad record at its first bad column, where the
/// reading stops.
pub fn read_rows<T: Table>(
    alloc: Global,
    table: &T,
    text: &[u8],
) -> Result<Rows<T::Row>, End<T::Refusal>>
    requires { length text.now < 2 ^ 32 - 1 }
    ensures rows { IfOk result
        (λ read. reading (T.rules table.now) (records_of text.now)
        ≡ Ok (record { version = read.version; rows = read.rows.items })) }
    ensures version { IfOk result (λ read. IsVersion (T.rules table.now).headers read.version) }
    ensures names { IfOk result (λ read. bytes_of read.names.keys ≡ map T.name_of read.rows.items) }
    ensures distinct { IfOk result (λ read. IsDistinct bytes_eq (bytes_of read.names.keys)) }
    ensures few { IfOk result
        (λ read. IfSome (T.rules table.now).most (λ most. length read.rows.items ≤ most.0)) }
    ensures each { IfOk result (λ read. All (T.is_row read.version) read.rows.items) }
    ensures refused { IfErr result (Tells (reading (T.rules table.now) (records_of text.now))) }
{
    let mut records = records_in(alloc, text);
    let first = match records.next() {
        Some(Ok(first)) => first,
        Some(Err(failure)) => return Err(end_of_failure(&failure)),
        None => return Err(End::Refused(table.refuse(Fault::Header))),
    };
    let Some(version) = version_of(&first, table.headers()) else {
        return Err(End::Refused(table.refuse(Fault::Header)));
    };
    let mut rows = Rows {
        version,
        names: IndexSet::new(alloc),
        rows: Vec::new(alloc),
    };
    for next in records {
        let fields = match next {
            Ok(fields) => fields,
            Err(failure) => return Err(end_of_failure(&failure)),
        };
        take_record(table, &fields, &mut rows)?;
    }
    Ok(rows)
}
