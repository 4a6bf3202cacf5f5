// Meetings and parts of the term as they are written, and which sections clash.
ghost use Rattle.std.specs.Prelude.{◌≡◌, length};

use market_units::SectionNo;
use std::alloc::Global;
use std::process::Abort;
use std::test::Fail;
use timetable_rules::{ClashTable, Meeting, Meetings, Parts, overlap, read_meetings, read_parts};

const TEN: &[u8] =
    b"M0000-0001;T0100-0101;W0200-0201;R0300-0301;F0400-0401;S0500-0501;U0600-0601;M0700-0701;T0800-0801;W0900-0901";

const TEN_OTHERS: &[u8] =
    b"U0000-0001;M0100-0101;T0200-0201;W0300-0301;R0400-0401;F0500-0501;S0600-0601;U0700-0701;M0800-0801;T0900-0901";

// A text, and how many meetings it spells, or `none` where it is not of the grammar.
const GRAMMAR: &str = "\
M0900-1020 => 1
 => 0
T0900-1020 => 1
W0900-1020 => 1
R0900-1020 => 1
F0900-1020 => 1
S0900-1020 => 1
U0900-1020 => 1
M0000-2359 => 1
M0959-1000 => 1
M1958-1959 => 1
M0900-1020;M0900-1020 => 2
U2300-2359;M0000-0001;R1200-1300 => 3
M0000-0001;T0100-0101;W0200-0201;R0300-0301;F0400-0401;S0500-0501;U0600-0601;M0700-0701;T0800-0801;W0900-0901 => 10
  => none
; => none
M => none
m0900-1020 => none
X0900-1020 => none
H0900-1020 => none
0900-1020 => none
MM0900-1020 => none
M900-1020 => none
M090-1020 => none
M0900-102 => none
M0900-10 => none
M09000-1020 => none
M0900-10200 => none
M0900 1020 => none
M0900- => none
M09001020 => none
M0900--1020 => none
M0960-1020 => none
M0900-1060 => none
M2400-2410 => none
M2300-2400 => none
M1020-0900 => none
M0900-0900 => none
M09:0-1020 => none
M0900-1020; => none
;M0900-1020 => none
M0900-1020;;T0900-1020 => none
M0900-1020 ;T0900-1020 => none
M0900-1020,T0900-1020 => none
M0000-0001;T0100-0101;W0200-0201;R0300-0301;F0400-0401;S0500-0501;U0600-0601;M0700-0701;T0800-0801;W0900-0901;R1000-1001 => none
";

fn count_of(text: &[u8]) -> Option<usize> {
    match read_meetings(text) {
        Some(meetings) => Some(meetings.as_slice().len()),
        None => None,
    }
}

fn try_meetings(rt: &impl Abort, alloc: Global, case: &str) -> Result<(), Fail> {
    let Some((text, wanted)) = case.split_once(" => ") else {
        return Err(Fail::from("a case without an answer"));
    };
    let told = match count_of(text.as_bytes()) {
        Some(count) => format!(in alloc; "{count}")?,
        None => String::from_str(alloc, "none")?,
    };
    assert_eq!(rt; told.as_str(), wanted, "{text}");
    Ok(())
}

#[test]
fn the_grammar(rt: HostRuntime) -> Result<(), Fail> {
    for case in GRAMMAR.split_terminator('\n') {
        try_meetings(&rt, rt.alloc(), case)?;
    }
    // Bytes that are no text.
    assert_eq!(rt; count_of(b"\xcd0900-1020"), None);
    Ok(())
}

#[test]
fn what_is_read(rt: HostRuntime) -> Result<(), Fail> {
    let meetings = [
        Meeting {
            day: 3,
            start: 545,
            end: 790,
        },
        Meeting {
            day: 0,
            start: 0,
            end: 1439,
        },
    ];
    let read = read(b"R0905-1310;M0000-2359");
    assert_eq!(rt; read.as_slice(), meetings.as_slice());
    Ok(())
}

const REFUSED_PARTS: [&[u8]; 10] = [
    b"", b"0", b"3", b"21", b"11", b"123", b"01", b" 1", b"1;2", b"\xb9",
];

#[test]
fn parts_of_a_term(rt: HostRuntime) -> Result<(), Fail> {
    let parts: [(&[u8], Parts); 3] = [
        (b"1", Parts::FIRST_HALF),
        (b"2", Parts::SECOND_HALF),
        (b"12", Parts::WHOLE_TERM),
    ];
    for (text, wanted) in parts {
        assert!(rt; read_parts(text) == Some(wanted), "{text:?}");
    }
    for text in REFUSED_PARTS {
        assert!(rt; read_parts(text).is_none(), "{text:?}");
    }
    Ok(())
}

// These pairs of sections clash, either way round, and no others.
fn assert_clashes(rt: &impl Abort, table: &ClashTable, sections: u16, pairs: &[(u16, u16)])
    requires { length table.now ≡ sections }
{
    for a in 0..sections {
        for b in 0..sections {
            let wanted = pairs.contains(&(a, b)) || pairs.contains(&(b, a));
            let clash = table.clash(SectionNo(a), SectionNo(b));
            assert!(rt; clash == wanted, "{a} {b}");
        }
    }
}

#[test]
fn sections_that_clash_in_parts_of_a_term(rt: HostRuntime) -> Result<(), Fail> {
    let at_nine = read(b"M0900-1020");
    let meetings = [at_nine, at_nine, at_nine, read(b"")];
    let parts = [
        Parts::FIRST_HALF,
        Parts::SECOND_HALF,
        Parts::WHOLE_TERM,
        Parts::SECOND_HALF,
    ];
    let table = ClashTable::build(rt.alloc(), &meetings, &[0, 1, 2, 0], &parts)?;
    assert_clashes(&rt, &table, 4, &[(0, 2), (1, 2), (0, 3)]);
    Ok(())
}

fn read(text: &[u8]) -> Meetings {
    read_meetings(text).unwrap_or(Meetings::none())
}

#[test]
fn sections_that_clash(rt: HostRuntime) -> Result<(), Fail> {
    let meetings = [
        read(b"M0900-1020"),
        read(b"M1020-1140"),
        read(b"M1019-1140"),
        read(b"T0900-1020"),
        read(b"T0800-0900;W0900-1000;M1000-1001"),
        read(b""),
        read(b""),
    ];
    let courses = [0, 1, 2, 3, 4, 5, 3];
    let table = ClashTable::build(rt.alloc(), &meetings, &courses, &[Parts::WHOLE_TERM; 7])?;
    assert_clashes(&rt, &table, 7, &[(0, 2), (0, 4), (1, 2), (3, 6)]);
    assert!(rt; overlap(&meetings[0], &meetings[2]) && !overlap(&meetings[0], &meetings[1]));
    Ok(())
}

#[test]
fn four_hundred_sections(rt: HostRuntime) -> Result<(), Fail> {
    let mut meetings = [read(TEN); 400];
    let mut courses = [0; 400];
    for section in 0..400 {
        if section % 2 == 1 {
            meetings[section] = read(TEN_OTHERS);
        }
        courses[section] = section as u16;
    }
    let table = ClashTable::build(rt.alloc(), &meetings, &courses, &[Parts::WHOLE_TERM; 400])?;
    assert!(rt; table.clash(SectionNo(1), SectionNo(399)));
    assert!(rt; !table.clash(SectionNo(0), SectionNo(399)));
    Ok(())
}
