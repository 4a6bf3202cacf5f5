// The numbers of the courses.
ghost use Rattle.std.specs.Prelude.{◌≡◌, ◌≤◌, IfOk, length};
ghost use Rattle.course_catalog.specs.Courses.{course_numbers};

use crate::rows::Row;
use indexmap::IndexSet;
use market_units::{MAX_SECTIONS, NoMemory};
use std::alloc::Global;

/// The numbers of the sections' courses: courses are numbered from 0 by first occurrence.
pub(crate) fn course_numbers(alloc: Global, sections: &[Row]) -> Result<Vec<u16>, NoMemory>
    requires { length sections.now ≤ MAX_SECTIONS }
    ensures { IfOk result (λ numbers. numbers.items ≡ course_numbers sections.now) }
{
    let mut courses = IndexSet::new(alloc);
    let mut numbers = Vec::with_capacity(alloc, sections.len())?;
    for section in sections {
        match courses.insert_full(section.course) {
            Ok((number, _)) => numbers.push(number as u16)?,
            Err(_) => return Err(NoMemory),
        }
    }
    Ok(numbers)
}
