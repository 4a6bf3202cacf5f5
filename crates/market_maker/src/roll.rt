// The roll.
ghost use Rattle.std.specs.Prelude.{◌≡◌, ◌++◌, IfOk, OnOk};
ghost use Rattle.market_maker.specs.{Lines.ended, Rolls.roll_text, Rolls.student_row};

use crate::lines::put_name;
use market_units::NoMemory;
use std::alloc::Global;

/// The text of a roll of so many students.
pub(crate) fn roll_text(alloc: Global, students: u16) -> Result<Vec<u8>, NoMemory>
    ensures { IfOk result (λ text. text.items ≡ roll_text students) }
{
    let mut text = Vec::new(alloc);
    text.extend_from_slice(b"student,budget,credits,courses\n")?;
    'students: for earlier in 0..students {
        put_student(&mut text, earlier + 1)?;
    }
    Ok(text)
}

// Puts the row of the student behind the text.
fn put_student(text: &mut Vec<u8>, student: u16) -> Result<(), NoMemory>
    ensures { OnOk result (text.new.items ≡ text.old.items ++ ended (student_row student)) }
{
    put_name(text, b'S', student)?;
    text.extend_from_slice(b",100000,12,4\n")?;
    Ok(())
}
