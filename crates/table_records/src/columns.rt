// The field of one column: a name, or a number.
ghost use Rattle.std.specs.Prelude.{◌≡◌, ◌≤◌, option_map};
ghost use Rattle.csv.specs.Records.{fields_of};
ghost use Rattle.market_units.specs.Name.{name_bytes};
ghost use Rattle.table_records.specs.{Columns.name_of, Columns.number_of, Records.field_in};

use csv::ByteRecord;
use market_units::{Name, read_name, read_number};

/// The field in a column, from 1; a column that the record lacks has no bytes.
pub fn field_in(fields: &ByteRecord, column: usize) -> &[u8]
    requires { 1 ≤ column }
    ensures { result.now ≡ field_in column (fields_of fields.now) }
{
    fields.get(column - 1).unwrap_or(&[])
}

/// The name in a column, from 1, or `None` exactly where what stands there is no name.
pub fn name_in(fields: &ByteRecord, column: usize) -> Option<Name>
    requires { 1 ≤ column }
    ensures { option_map name_bytes result ≡ name_of (field_in column (fields_of fields.now)) }
{
    read_name(field_in(fields, column))
}

/// The number at most `max` in a column, from 1, or `None` exactly where what stands there spells
/// none.
pub fn number_in(fields: &ByteRecord, column: usize, max: u64) -> Option<u64>
    requires { 1 ≤ column }
    ensures { result ≡ number_of max (field_in column (fields_of fields.now)) }
{
    read_number(field_in(fields, column), max)
}
