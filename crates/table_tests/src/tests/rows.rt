// Rows taken, written and given back.
use row_region::Region;
use std::test::Fail;

#[test]
#[tactic(auto, using(row_region::proofs::Rows::live_rows))]
fn rows_are_apart(rt: HostRuntime) -> Result<(), Fail> {
    let Ok(mut region) = Region::reserve(rt.alloc(), 2, 3, 7u8) else {
        return Err(Fail::from("memory"));
    };
    assert_eq!(rt; region.spare(), 2);
    let first = region.take();
    let second = region.take();
    assert_eq!(rt; region.spare(), 0);
    assert_ne!(rt; first, second);
    assert_eq!(rt; region.row(first), [7, 7, 7].as_slice());
    let cells = region.row_mut(first);
    cells[0] = 1;
    cells[2] = 3;
    assert_eq!(rt; region.row(first), [1, 7, 3].as_slice());
    assert_eq!(rt; region.row(second), [7, 7, 7].as_slice());
    region.give(first);
    assert_eq!(rt; region.spare(), 1);
    let third = region.take();
    assert_eq!(rt; region.row(third), [7, 7, 7].as_slice());
    assert_eq!(rt; region.row(second), [7, 7, 7].as_slice());
    Ok(())
}
