// What a kind of table is.
ghost use Rattle.std.specs.Prelude.{◌≡◌, ℕ, List, map, IfOk};
ghost use Rattle.csv.specs.Records.{fields_of};
ghost use Rattle.market_units.specs.Name.{name_bytes};
ghost use Rattle.table_records.specs.{Reading.IsVersion, Reading.Rules, Records.first_field};

use crate::Fault;
use csv::ByteRecord;
use market_units::Name;

/// A kind of table: what the records of its versions may be, and what they mean.
pub trait Table {
    /// A row. Contracts see it as what its record means.
    type Row: Drop;

    /// Why a text is refused.
    type Refusal: Copy + Drop;

    /// The rules of the table.
    ghost rules: { Self → Rules Self.Row Self.Refusal };

    /// The name of a row.
    ghost name_of: { Self.Row → List ℕ };

    /// What holds of every row that is read from a table of this version.
    ghost is_row: { ℕ → Self.Row → Type 0 };

    /// The headers of the table's versions, from version 1 on: the fields that the first record may
    /// be. Where there are none, every text is refused by its header, so no condition asks for one.
    fn headers(&self) -> &[&[&[u8]]]
        ensures { map (λ header. map (λ f. f.now) header.now) result.now ≡ (rules self.now).headers };

    /// The greatest number of rows, with the refusal of one more; `None` where there is no such
    /// number.
    fn most(&self) -> Option<(usize, Self::Refusal)>
        ensures { result ≡ (rules self.now).most };

    /// Whether a row may have this name.
    fn knows(&self, name: &Name) -> bool
        ensures { result ≡ (rules self.now).knows (name_bytes name.now) };

    /// The refusal of a fault in no later column than the first.
    fn refuse(&self, fault: Fault) -> Self::Refusal
        ensures { result ≡ (rules self.now).refusal fault };

    /// The row of this number and name that the record is in a table of this version, or the
    /// refusal of its first bad column after the first.
    fn read_row(
        &self,
        version: usize,
        row: u32,
        name: Name,
        fields: &ByteRecord,
    ) -> Result<Self::Row, Self::Refusal>
        requires version { IsVersion (rules self.now).headers version }
        requires name { name_bytes name ≡ first_field (fields_of fields.now) }
        ensures row { result ≡ (rules self.now).row version row (fields_of fields.now) }
        ensures name { IfOk result (λ read. name_of read ≡ name_bytes name) }
        ensures kept { IfOk result (is_row version) };
}
