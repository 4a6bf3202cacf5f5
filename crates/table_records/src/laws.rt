//! What holds of columns and records: each call here does nothing, and its contract is a law.
ghost use Rattle.table_records.specs.Laws.{NameTest, NumberSpelled, RefusalOfTheFirst, RowsWhereAllAreGood};

/// The test of a name tells names.
pub fn name_test()
    ensures { NameTest }
{}

/// A column says a number at most `max` exactly where it is that number's spelling.
pub fn number_spelled()
    ensures { NumberSpelled }
{}

/// Rows are read exactly where every record's answer is its row.
pub fn rows_where_all_are_good<R, E>()
    ensures { RowsWhereAllAreGood R E }
{}

/// A refusal is told exactly where it is that of the first record that has one.
pub fn refusal_of_the_first<R, E>()
    ensures { RefusalOfTheFirst R E }
{}
