// A round of two versions, worked at two seats in one thread: whether any of four students takes
// the one section at 102, and what each takes at 103.
use crate::tests::driver::Driver;
use crate::tests::workers::at;
use market_units::{NoMemory, SectionNo, StudentNo};
use price_board::{Answers, Ask, Draw, Drawn, Posted, Round, Task};
use std::alloc::Global;
use std::process::Abort;
use std::sync::Wait;
use std::test::Fail;

// Whether more than none take the section at the first version, and what each takes at the second.
fn round_of_both(alloc: Global) -> Result<Round, NoMemory> {
    let any = Ask::Exceeds {
        section: SectionNo(0),
        limit: 0,
    };
    Ok(Round {
        versions: vec![in alloc; at(alloc, 102)?, at(alloc, 103)?]?,
        asks: vec![in alloc; any, Ask::Counts]?,
        list: None,
    })
}

// The task of this version and student.
fn task_of(version: u8, student: u16) -> Drawn {
    Drawn {
        number: u32::from(version) * 4 + u32::from(student),
        task: Task {
            version: usize::from(version),
            student: StudentNo(student),
            raised: None,
        },
    }
}

// What the second worker draws: the third student of the first version decides it, so that nobody
// draws its fourth, and then come all of the second version.
const LEFT: [(u8, u16); 6] = [(0, 1), (0, 2), (1, 0), (1, 1), (1, 2), (1, 3)];

// The first worker draws the first task, and the second draws and posts all that are left. Only
// then the first worker posts its task, and then posts it again.
fn worked<R: Abort + Wait>(rt: &R, alloc: Global) -> Result<Answers, Fail> {
    let mut driver = Driver::start(rt, alloc, round_of_both(alloc)?, 2)?;
    let first = task_of(0, 0);
    assert_eq!(rt; driver.draw(rt, 0), Draw::Task(first));
    for (version, student) in LEFT {
        let task = task_of(version, student);
        assert_eq!(rt; driver.draw(rt, 1), Draw::Task(task));
        assert_eq!(rt; driver.post(rt, 1, task), Posted::Taken);
    }
    assert_eq!(rt; driver.post(rt, 0, first), Posted::Late { count: 1 });
    assert_eq!(rt; driver.post(rt, 0, first), Posted::NotYours);
    assert_eq!(rt; driver.draw(rt, 0), Draw::Done);
    assert_eq!(rt; driver.draw(rt, 1), Draw::Done);
    Ok(driver.close(rt))
}

// Whether the bundle that was posted has the section, for each version and student; `None` where
// none was taken.
const POSTED: [(u8, u16, Option<bool>); 8] = [
    (0, 0, None),
    (0, 1, Some(false)),
    (0, 2, Some(true)),
    (0, 3, None),
    (1, 0, Some(false)),
    (1, 1, Some(false)),
    (1, 2, Some(false)),
    (1, 3, Some(true)),
];

fn has_section(answers: &Answers, version: u8, student: u16) -> Option<bool> {
    match answers.bundle(version, StudentNo(student)) {
        Some(bundle) => Some(bundle.has(SectionNo(0))),
        None => None,
    }
}

// A version is settled while a task of it is out, and the next one is worked whole.
#[test]
fn a_version_is_settled_while_a_task_is_out(rt: HostRuntime) -> Result<(), Fail> {
    let answers = worked(&rt, rt.alloc())?;
    assert_eq!(rt; answers.exceeds(0), Some(true));
    assert_eq!(rt; answers.exceeds(1), None);
    for (version, student, wanted) in POSTED {
        let found = has_section(&answers, version, student);
        assert_eq!(rt; found, wanted, "version {version}, student {student}");
    }
    Ok(())
}
