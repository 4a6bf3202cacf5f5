// Numbers, names and sets of sections.
use market_units::{SectionNo, SectionSet, put_number, read_name, read_number};
use std::test::Fail;

#[test]
fn a_number_has_one_spelling(rt: HostRuntime) -> Result<(), Fail> {
    let read: [(&[u8], u64, Option<u64>); 12] = [
        (b"0", 0, Some(0)),
        (b"400", 400, Some(400)),
        (b"401", 400, None),
        (b"18446744073709551615", u64::MAX, Some(u64::MAX)),
        (b"18446744073709551616", u64::MAX, None),
        (b"99999999999999999999999", u64::MAX, None),
        (b"", 9, None),
        (b"007", 400, None),
        (b"00", 400, None),
        (b"-1", 400, None),
        (b"+1", 400, None),
        (b" 1", 400, None),
    ];
    for (bytes, max, wanted) in read.iter() {
        assert_eq!(rt; read_number(bytes, *max), *wanted);
    }
    let mut room = [b'.'; 20];
    assert_eq!(rt; put_number(907, &mut room), 3);
    assert_eq!(rt; room.as_slice(), b"907.................".as_slice());
    assert_eq!(rt; put_number(u64::MAX, &mut room), 20);
    assert_eq!(rt; room.as_slice(), b"18446744073709551615".as_slice());
    Ok(())
}

#[test]
fn a_name_is_its_bytes(rt: HostRuntime) -> Result<(), Fail> {
    let refused: [&[u8]; 6] = [
        b"",
        b"A B",
        b"caf\xc3\xa9",
        b"a/b",
        b"A\n",
        b"A23456789012345678901234567890123",
    ];
    for bytes in refused.iter() {
        assert!(rt; read_name(bytes).is_none());
    }
    let longest = b"A.Z-a_z0123456789012345678901234".as_slice();
    let name = read_name(longest).expect(&rt, "32 bytes");
    assert_eq!(rt; name.bytes(), longest);
    assert!(rt; read_name(b"A") == read_name(b"A"));
    assert!(rt; read_name(b"A") != read_name(b"a"));
    Ok(())
}

#[test]
fn a_section_set_is_a_set(rt: HostRuntime) -> Result<(), Fail> {
    let set = SectionSet::full(130)
        .without(SectionNo(64))
        .with(SectionNo(399));
    let wanted = [
        (0, true),
        (63, true),
        (64, false),
        (129, true),
        (130, false),
        (399, true),
    ];
    for (section, is_in) in wanted.iter() {
        assert_eq!(rt; set.has(SectionNo(*section)), *is_in);
    }
    assert!(rt; !SectionSet::empty().has(SectionNo(0)));
    assert!(rt; SectionSet::full(400).has(SectionNo(399)));
    Ok(())
}
