use super::*;
use std::test::Fail;
use std::time::Duration;
use work::{nanoseconds, work};

// Seeds with what so many rounds make of them, as Python computes it.
const WORKS: [(u64, u64, u64); 4] = [
    (7, 0, 7),
    (0, 1, 1_442_695_038_202_829_496),
    (1, 3, 765_758_168_709_038_812),
    (u64::MAX, 1000, 17_922_392_534_283_121_357),
];

#[test]
fn rounds_of_work(rt: HostRuntime) -> Result<(), Fail> {
    for (seed, rounds, end) in WORKS {
        assert_eq!(rt; work(seed, rounds), end);
    }
    Ok(())
}

#[test]
fn times_in_nanoseconds(rt: HostRuntime) -> Result<(), Fail> {
    assert_eq!(rt; nanoseconds(Duration::new(2, 5)), 2_000_000_005);
    assert_eq!(rt; nanoseconds(Duration::MAX), u64::MAX);
    Ok(())
}
