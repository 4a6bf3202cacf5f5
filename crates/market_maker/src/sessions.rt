// The sessions.
ghost use Rattle.std.specs.Prelude.{◌≡◌, ◌==◌, ◌%◌, IfOk};
ghost use Rattle.market_maker.specs.Lines.{text_of};
ghost use Rattle.market_maker.specs.Sessions.{first_text, lines_of, second_text};

use crate::wishes::Wishes;
use market_units::NoMemory;
use std::alloc::Global;

/// The commands of the students of odd number, in the order of their numbers: the first session.
pub(crate) fn first_text(alloc: Global, wishes: Wishes, students: u16) -> Result<Vec<u8>, NoMemory>
    ensures { IfOk result
        (λ text. text.items ≡ first_text wishes.seed students wishes.sections) }
{
    session_text(alloc, wishes, students, 1)
}

/// The commands of the students of even number, in the order of their numbers: the second session.
pub(crate) fn second_text(alloc: Global, wishes: Wishes, students: u16) -> Result<Vec<u8>, NoMemory>
    ensures { IfOk result
        (λ text. text.items ≡ second_text wishes.seed students wishes.sections) }
{
    session_text(alloc, wishes, students, 0)
}

// The session of the students whose number leaves this rest when it is halved.
fn session_text(
    alloc: Global,
    wishes: Wishes,
    students: u16,
    rest: u16,
) -> Result<Vec<u8>, NoMemory>
    ensures { IfOk result
        (λ text. text.items
        ≡ text_of (lines_of (λ i. i % 2 == rest) wishes.seed students wishes.sections)) }
{
    let mut text = Vec::new(alloc);
    'students: for earlier in 0..students {
        let student = earlier + 1;
        if student % 2 != rest {
            continue;
        }
        wishes.put_student(&mut text, student)?;
    }
    Ok(text)
}
