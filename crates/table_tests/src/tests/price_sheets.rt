// Price sheets of three sections.
use crate::tests::tables::{Table, try_cases};
use std::test::Fail;

const READ: &str = "\
section,price => [Tokens(0), Tokens(0), Tokens(0)]
section,price|C,1000001|A,7| => [Tokens(7), Tokens(0), Tokens(1000001)]
\u{feff}section,price\r|\r|B,0\r|\"C\",\"12\"\r|A,3 => [Tokens(3), Tokens(0), Tokens(12)]
section,price|B,102| => [Tokens(0), Tokens(102), Tokens(0)]
";

const REFUSED: &str = "\
price,section|A,1| => Header
 => Header
section,price|A| => Fields { row: 2 }
section,price|A,1,| => Fields { row: 2 }
section,price|A,1|D,x| => Name { row: 3, column: 1 }
section,price|a,1| => Name { row: 2, column: 1 }
section,price|A,1|B,1|A,x| => Repeated { row: 4, earlier: 2 }
section,price|A,1000002| => Number { row: 2, column: 2 }
section,price|A,01| => Number { row: 2, column: 2 }
section,price|B,1|A,|A,1| => Number { row: 3, column: 2 }
";

#[test]
fn a_sheet_gives_each_section_its_price(rt: HostRuntime) -> Result<(), Fail> {
    try_cases(&rt, rt.alloc(), Table::Prices, "", READ)
}

#[test]
fn a_sheet_is_refused_at_its_first_fault(rt: HostRuntime) -> Result<(), Fail> {
    try_cases(&rt, rt.alloc(), Table::Prices, "", REFUSED)
}
