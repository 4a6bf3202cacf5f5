// Made markets, as their texts are read.
use course_catalog::Catalog;
use made_run::{MadeMarket, Numbers, make_market};
use market_settings::Settings;
use market_units::{Name, SectionNo, StudentNo, read_name};
use std::process::Abort;
use std::test::Fail;
use student_roll::Roll;
use utility_language::Command;

// The name that the bytes are.
fn name(rt: &impl Abort, bytes: &[u8]) -> Name {
    read_name(bytes).expect(rt, "a name")
}

// The commands of a student who rates these two sections, and has an adjustment of both.
fn wishes(
    rt: &impl Abort,
    student: &[u8],
    (first, rating): (&[u8], i32),
    (second, other): (&[u8], i32),
    n: i32,
) -> [Command; 3] {
    let student = name(rt, student);
    let first = name(rt, first);
    let second = name(rt, second);
    [
        Command::Rate {
            student,
            section: first,
            n: rating,
        },
        Command::Rate {
            student,
            section: second,
            n: other,
        },
        Command::Pair {
            student,
            first,
            second,
            n,
        },
    ]
}

// Two sections of one course, the first with two credits and the second with three.
fn is_catalog_of_two(rt: &impl Abort, catalog: &Catalog) {
    let (first, second) = (SectionNo(0), SectionNo(1));
    assert!(rt; catalog.len() == 2);
    assert_eq!(rt; catalog.name(first), name(rt, b"C1"));
    assert_eq!(rt; catalog.all_seats(), [1, 1].as_slice());
    assert!(rt; catalog.clash(first, second));
}

fn has_credits_of_two(rt: &impl Abort, catalog: &Catalog) {
    assert!(rt; catalog.len() == 2);
    let credits = [catalog.credits(SectionNo(0)), catalog.credits(SectionNo(1))];
    assert_eq!(rt; credits, [2, 3]);
}

// The second of two students.
fn is_roll_of_two(rt: &impl Abort, roll: &Roll) {
    let last = StudentNo(1);
    assert!(rt; roll.len() == 2);
    assert_eq!(rt; roll.name(last), name(rt, b"S2"));
    assert_eq!(rt; roll.base(last), 100_000);
    assert_eq!(rt; roll.credits(last), 12);
    assert_eq!(rt; roll.courses(last), 4);
}

// The numbers of the settings that a made market has whatever its size is.
fn are_made_settings(rt: &impl Abort, settings: &Settings) {
    let numbers = [settings.turns, settings.tabu, settings.patience];
    assert_eq!(rt; numbers, [25, 20, 10]);
    assert_eq!(rt; [settings.spread, settings.raise], [10, 10]);
    assert_eq!(rt; settings.steps.as_slice(), [1, 10, 100].as_slice());
}

// What a made market of these two sessions says.
fn are_commands_of_two(rt: &impl Abort, streams: &[Vec<Command>]) {
    let [odd, even] = streams else {
        rt.abort();
    };
    let first = wishes(rt, b"S1", (b"C2", 97), (b"C1", 61), -12);
    assert_eq!(rt; odd.as_slice(), first.as_slice());
    let second = wishes(rt, b"S2", (b"C1", 85), (b"C2", 28), -11);
    assert_eq!(rt; even.as_slice(), second.as_slice());
}

const TWO_AND_TWO: Numbers = Numbers {
    seed: 7,
    students: 2,
    sections: 2,
    accept: 0,
};

const GREATEST: Numbers = Numbers {
    seed: u64::MAX,
    students: 2_000,
    sections: 400,
    accept: 1_000_000_000_000,
};

// Two students and two sections of one course.
#[test]
fn two_students_two_sections(rt: HostRuntime) -> Result<(), Fail> {
    let made = make_market(rt.alloc(), TWO_AND_TWO)?;
    is_catalog_of_two(&rt, &made.catalog);
    has_credits_of_two(&rt, &made.catalog);
    is_roll_of_two(&rt, &made.roll);
    assert_eq!(rt; [made.settings.seed, made.settings.accept], [7, 0]);
    are_made_settings(&rt, &made.settings);
    are_commands_of_two(&rt, &made.streams);
    Ok(())
}

// The catalogue and the roll have so many rows, and each of the two sessions so many commands.
fn has_sizes(rt: &impl Abort, made: &MadeMarket, rows: [u16; 2], commands: usize) {
    assert_eq!(rt; [made.catalog.len(), made.roll.len()], rows);
    let [odd, even] = made.streams.as_slice() else {
        rt.abort();
    };
    assert_eq!(rt; [odd.len(), even.len()], [commands; 2]);
}

// The greatest market: each of 2,000 students rates 20 sections and has one adjustment.
#[test]
fn greatest_market(rt: HostRuntime) -> Result<(), Fail> {
    let made = make_market(rt.alloc(), GREATEST)?;
    has_sizes(&rt, &made, [400, 2_000], 21_000);
    let wanted = [u64::MAX, 1_000_000_000_000];
    assert_eq!(rt; [made.settings.seed, made.settings.accept], wanted);
    Ok(())
}
