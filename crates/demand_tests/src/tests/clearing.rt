// The clearing error of four sections.
use clearing_error::{error, excess};
use market_units::Tokens;
use std::test::Fail;

// Of each section the count, the seats and the price, and the error of all four.
type Case = ([u32; 4], [u16; 4], [u32; 4], u64);

const CASES: [Case; 5] = [
    // The ordinary term at zero prices: one student more than seats for the first section, free
    // seats for others.
    ([2, 1, 1, 1], [1, 2, 2, 1], [0, 0, 0, 0], 1),
    // Its last prices clear the market, since seats stay free at price 0 alone.
    ([1, 1, 1, 1], [1, 2, 2, 1], [104, 0, 0, 0], 0),
    // Free seats at a price above 0 are an error.
    ([1, 0, 1, 1], [1, 2, 2, 1], [104, 1, 1, 1], 5),
    // Too many students are an error at each price, and squared.
    ([4, 4, 0, 0], [1, 2, 0, 0], [0, 7, 0, 1], 13),
    // The greatest error of four sections.
    ([0; 4], [65_535; 4], [1; 4], 17_179_344_900),
];

#[test]
fn the_clearing_error(rt: HostRuntime) -> Result<(), Fail> {
    for (counts, seats, amounts, wanted) in CASES.iter() {
        let prices = [
            Tokens(amounts[0]),
            Tokens(amounts[1]),
            Tokens(amounts[2]),
            Tokens(amounts[3]),
        ];
        assert_eq!(rt; error(counts, seats, &prices), *wanted);
    }
    assert_eq!(rt; error(&[], &[], &[]), 0);
    assert_eq!(rt; excess(4, 1), 3);
    assert_eq!(rt; excess(0, 9_999), -9_999);
    assert_eq!(rt; excess(2_000, 2_000), 0);
    Ok(())
}
