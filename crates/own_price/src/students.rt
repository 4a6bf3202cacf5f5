// The numbers of students.
ghost use Rattle.std.specs.Prelude.{◌≡◌, IfOk, map};
ghost use Rattle.bundle_rules.specs.Places.{places_from};

use market_units::{NoMemory, StudentNo};
use std::alloc::Global;

/// The numbers of so many students, from 0, in file order.
pub(crate) fn all_students(alloc: Global, count: u16) -> Result<Vec<StudentNo>, NoMemory>
    ensures { IfOk result
        (λ students. map (λ student. student.0) students.items ≡ places_from 0 count) }
{
    let mut students = Vec::new(alloc);
    for student in 0..count {
        students.push(StudentNo(student))?;
    }
    Ok(students)
}
