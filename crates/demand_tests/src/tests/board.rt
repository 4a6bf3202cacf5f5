// Rounds of four students, all of whom want the one section.
use crate::tests::driver::Driver;
use crate::tests::workers::at;
use market_units::{NoMemory, SectionNo, StudentNo};
use price_board::{Ask, Draw, Drawn, Posted, Round, Task};
use std::alloc::Global;
use std::process::Abort;
use std::sync::Wait;
use std::test::Fail;

// One version, at which the section is free, and whether more than the limit take it.
fn one_version(alloc: Global, limit: u32) -> Result<Round, NoMemory> {
    let asked = Ask::Exceeds {
        section: SectionNo(0),
        limit,
    };
    Ok(Round {
        versions: vec![in alloc; at(alloc, 0)?]?,
        asks: vec![in alloc; asked]?,
        list: None,
    })
}

// The students whose tasks one worker draws, each posted at once, and whether more than the limit
// take the section.
fn settle<R: Abort + Wait>(
    rt: &R,
    alloc: Global,
    limit: u32,
) -> Result<(Vec<u16>, Option<bool>), Fail> {
    let mut driver = Driver::start(rt, alloc, one_version(alloc, limit)?, 1)?;
    let mut drawn = Vec::new(alloc);
    for _ in 0..5 {
        let Draw::Task(next) = driver.draw(rt, 0) else {
            break;
        };
        driver.post(rt, 0, next);
        drawn.push(next.task.student.0)?;
    }
    Ok((drawn, driver.close(rt).exceeds(0)))
}

// A limit, the students who are drawn until it decides, and whether more take the section.
const SETTLED: [(u32, &[u16], bool); 3] = [
    (2, &[0, 1, 2], true),
    (3, &[0, 1, 2, 3], true),
    (4, &[], false),
];

// A version is settled as soon as its posted bundles decide.
#[test]
fn a_version_settles_early(rt: HostRuntime) -> Result<(), Fail> {
    for (limit, students, more) in SETTLED {
        let (drawn, exceeds) = settle(&rt, rt.alloc(), limit)?;
        assert_eq!(rt; drawn.as_slice(), students);
        assert_eq!(rt; exceeds, Some(more));
    }
    Ok(())
}

// The task of the one version and this student.
fn task_of(student: u16) -> Drawn {
    Drawn {
        number: u32::from(student),
        task: Task {
            version: 0,
            student: StudentNo(student),
            raised: None,
        },
    }
}

// Of two workers the second draws and posts all tasks but the first, which the first worker drew
// and posts only then; after that the second posts a task again.
#[test]
fn a_late_post_does_not_count(rt: HostRuntime) -> Result<(), Fail> {
    let mut driver = Driver::start(&rt, rt.alloc(), one_version(rt.alloc(), 2)?, 2)?;
    assert_eq!(rt; driver.draw(&rt, 0), Draw::Task(task_of(0)));
    for student in 1..4 {
        let task = task_of(student);
        assert_eq!(rt; driver.draw(&rt, 1), Draw::Task(task));
        assert_eq!(rt; driver.post(&rt, 1, task), Posted::Taken);
    }
    assert_eq!(rt; driver.post(&rt, 0, task_of(0)), Posted::Late { count: 3 });
    assert_eq!(rt; driver.post(&rt, 1, task_of(1)), Posted::NotYours);
    assert_eq!(rt; driver.draw(&rt, 0), Draw::Done);
    assert_eq!(rt; driver.draw(&rt, 1), Draw::Done);
    assert_eq!(rt; driver.close(&rt).exceeds(0), Some(true));
    Ok(())
}
