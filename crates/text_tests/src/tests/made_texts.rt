// The texts of made markets, against a script that was written from their description.
use market_maker::{Made, make};
use std::alloc::Global;
use std::process::Abort;
use std::test::Fail;

// Two students and two sections.
const CATALOG: &[u8] =
    b"section,course,seats,credits,meetings\nC1,K1,1,2,T0930-1050\nC2,K1,1,3,W1100-1220\n";

const ROLL: &[u8] = b"student,budget,credits,courses\nS1,100000,12,4\nS2,100000,12,4\n";

const SETTINGS: &[u8] =
    b"{\"seed\":7,\"spread\":10,\"accept\":0,\"turns\":25,\"tabu\":20,\"patience\":10,\"steps\":[1,10,100],\"raise\":10}\n";

const FIRST: &[u8] = b"rate S1 C2 97\nrate S1 C1 61\npair S1 C2 C1 -12\n";

const SECOND: &[u8] = b"rate S2 C1 85\nrate S2 C2 28\npair S2 C1 C2 -11\n";

// The made market of these numbers.
fn made(
    rt: &impl Abort,
    alloc: Global,
    (seed, students, sections, accept): (u64, u16, u16, u64),
) -> Made {
    assert!(rt; students >= 1 && students <= 2000);
    assert!(rt; sections >= 1 && sections <= 400);
    assert!(rt; accept <= 1_000_000_000_000);
    make(alloc, seed, students, sections, accept).expect(rt, "memory")
}

#[test]
fn two_students_two_sections(rt: HostRuntime) -> Result<(), Fail> {
    let made = made(&rt, rt.alloc(), (7, 2, 2, 0));
    assert_eq!(rt; made.catalog.as_slice(), CATALOG);
    assert_eq!(rt; made.roll.as_slice(), ROLL);
    assert_eq!(rt; made.settings.as_slice(), SETTINGS);
    assert_eq!(rt; made.first.as_slice(), FIRST);
    assert_eq!(rt; made.second.as_slice(), SECOND);
    Ok(())
}

// One section is rated by its one student, who has nothing to adjust.
#[test]
fn one_student_one_section(rt: HostRuntime) -> Result<(), Fail> {
    let made = made(&rt, rt.alloc(), (0, 1, 1, 0));
    assert_eq!(rt; made.first.as_slice(), b"rate S1 C1 54\n".as_slice());
    assert_eq!(rt; made.second.as_slice(), b"".as_slice());
    Ok(())
}

// The lengths of the texts of a greater market, and its last lines.
#[test]
fn three_hundred_students(rt: HostRuntime) -> Result<(), Fail> {
    let made = made(&rt, rt.alloc(), (11, 300, 60, 1_000_000_000_000));
    assert_eq!(rt; made.catalog.len(), 1_451);
    assert_eq!(rt; made.roll.len(), 5_023);
    assert_eq!(rt; made.settings.len(), 112);
    assert_eq!(rt; made.first.len(), 52_212);
    assert_eq!(rt; made.second.len(), 52_306);
    assert!(rt;
        made.catalog
            .ends_with(b"\nC59,K30,76,3,F1530-1650\nC60,K30,76,1,M0800-0920\n")
    );
    assert!(rt;
        made.second
            .ends_with(b"\nrate S300 C20 92\npair S300 C1 C2 4\n")
    );
    Ok(())
}
