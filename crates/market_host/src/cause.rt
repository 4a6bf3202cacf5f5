// Why an input is refused.
use market_settings::Key;

/// Why an input is refused, at the row that the status names. Rows and columns are numbered from 1;
/// a cause that has no row has row 0.
#[derive(Clone, Copy, Debug, PartialEq, Eq)]
pub enum Cause {
    /// The first record of a table is not its header.
    Header,
    /// A record has more or fewer fields than the header.
    Fields,
    /// A field of this column is no name, or no name that is known.
    Name { column: u8 },
    /// A record has the name of this earlier row.
    Repeated { earlier: u32 },
    /// A field of this column is no number of its range.
    Number { column: u8 },
    /// A field is no list of meetings.
    Meetings,
    /// A field does not say in which parts of the term a section runs.
    Parts,
    /// A table has too many rows.
    TooMany,
    /// The settings are not JSON.
    NotJson,
    /// The settings are no object.
    NotObject,
    /// This setting is missing.
    Missing(Key),
    /// There is a setting of another name.
    Unknown,
    /// This setting is out of its range.
    Range(Key),
}
