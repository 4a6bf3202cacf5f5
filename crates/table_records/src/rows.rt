// The rows that were read, with their names.
ghost use Rattle.std.specs.Prelude.{◌≡◌, ◌+◌, ◌<◌, ◌^◌, length, position, slice_get, Some, IfSome, IfOk, OnOk, IfErr};
ghost use Rattle.std.specs.Str.{bytes_eq};
ghost use Rattle.csv.specs.Records.{fields_of};
ghost use Rattle.market_units.specs.Name.{name_bytes};
ghost use Rattle.table_records.specs.Reading.{IsVersion, Tells, answer_to, bytes_of, header_of, refusal_if_full};
ghost use Rattle.table_records.specs.Walk.{AddsName, TakesRow};

use crate::columns::name_in;
use crate::{End, Fault, Table};
use csv::ByteRecord;
use indexmap::IndexSet;
use market_units::{Name, NoMemory};
use std::alloc::Global;

/// The version of a table, its rows in the order of their records, and their names in the same
/// order.
#[derive(Drop)]
pub struct Rows<R> {
    pub version: usize,
    // By the hasher of `indexmap`, whose seed is fixed: names that collide on purpose are read
    // slowly. The tables of a market have at most 2,000 names, and no clause speaks of time.
    pub names: IndexSet<Name>,
    pub rows: Vec<R>,
}

/// The place, from 0, of a name among names, or `None` exactly where it is not among them.
pub fn place_of(names: &IndexSet<Name>, name: &Name) -> Option<usize>
    ensures place { result ≡ position (bytes_eq (name_bytes name.now)) (bytes_of names.now.keys) }
    ensures found { IfSome result
        (λ place. slice_get (bytes_of names.now.keys) place ≡ Some (name_bytes name.now)) }
    ensures within { IfSome result (λ place. place < length names.now.keys) }
{
    names.get_index_of(name)
}

// The refusal of one more row, where there are as many as the table may have.
fn refusal_if_full<T: Table>(table: &T, rows: usize) -> Option<T::Refusal>
    ensures { result ≡ refusal_if_full (T.rules table.now).most rows }
{
    match table.most() {
        Some((most, refusal)) if most <= rows => Some(refusal),
        _ => None,
    }
}

// The number of fields of the header of a version.
fn width_of<T: Table>(table: &T, version: usize) -> usize
    requires { IsVersion (T.rules table.now).headers version }
    ensures { result ≡ length (header_of (T.rules table.now).headers version) }
{
    table.headers()[version - 1].len()
}

// Adds a name, unless it is there: then its place.
fn add_name(names: &mut IndexSet<Name>, name: Name) -> Result<Option<usize>, NoMemory>
    ensures { IfOk result (AddsName names.old.keys names.new.keys (name_bytes name)) }
{
    match names.insert_full(name) {
        Ok((_, true)) => Ok(None),
        Ok((earlier, false)) => Ok(Some(earlier)),
        Err(_) => Err(NoMemory),
    }
}

/// Adds the row that a record makes behind the rows read so far. Else the refusal of the record, or
/// want of memory.
pub(crate) fn take_record<T: Table>(
    table: &T,
    fields: &ByteRecord,
    rows: &mut Rows<T::Row>,
) -> Result<(), End<T::Refusal>>
    requires version { IsVersion (T.rules table.now).headers rows.old.version }
    requires count { length rows.old.names.keys + 2 < 2 ^ 32 }
    ensures taken { OnOk result
        (TakesRow (T.rules table.now) T.name_of T.is_row (fields_of fields.now) rows.old rows.new) }
    ensures refused { IfErr result
        (Tells
        (answer_to (T.rules table.now) rows.old.version (bytes_of rows.old.names.keys)
        (fields_of fields.now))) }
{
    if let Some(refusal) = refusal_if_full(table, rows.names.len()) {
        return Err(End::Refused(refusal));
    }
    let row = rows.names.len() as u32 + 2;
    if fields.len() != width_of(table, rows.version) {
        return Err(End::Refused(table.refuse(Fault::Fields { row })));
    }
    let Some(name) = name_in(fields, 1) else {
        return Err(End::Refused(table.refuse(Fault::Name { row })));
    };
    if !table.knows(&name) {
        return Err(End::Refused(table.refuse(Fault::Name { row })));
    }
    match add_name(&mut rows.names, name) {
        Ok(None) => {}
        Ok(Some(place)) => {
            let earlier = place as u32 + 2;
            return Err(End::Refused(table.refuse(Fault::Repeated { row, earlier })));
        }
        Err(NoMemory) => return Err(End::NoMemory),
    }
    let read = match table.read_row(rows.version, row, name, fields) {
        Ok(read) => read,
        Err(refusal) => return Err(End::Refused(refusal)),
    };
    if rows.rows.push(read).is_err() {
        return Err(End::NoMemory);
    }
    Ok(())
}
