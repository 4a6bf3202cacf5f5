// The roll, and what it says of each student.
ghost use Rattle.std.specs.Prelude.{◌≡◌, ◌==◌, ◌+◌, ◌<◌, ◌≤◌, [], ◌∷◌, length, Some, option_map, position, slice_get, slice_index_or, IfOk, IfSome};
ghost use Rattle.std.specs.Str.{bytes_eq};
ghost use Rattle.market_units.specs.Name.{name_bytes};
ghost use Rattle.student_roll.specs.Kept.{KeepsStudents};
ghost use Rattle.student_roll.specs.Students.{IsRoll, names_of, no_student, single_student};

use crate::entry::Entry;
use indexmap::IndexSet;
use market_units::{MAX_BASE, MAX_COURSES, MAX_CREDITS, Name, NoMemory, StudentNo};
use std::alloc::Global;
use std::marker::Model;
use table_records::{Rows, place_of};

/// The students of the market in file order: at most 2,000, each in its ranges, no two of one name;
/// and the version of their table. A student's number is its place, from 0.
#[derive(Drop)]
pub struct Roll {
    version: u8,
    names: IndexSet<Name>,
    students: Vec<Entry>,
}

impl Model for Roll {
    ghost use Rattle.student_roll.specs.{Kept.KeepsStudents, Students.RollData};

    ghost Value = { RollData };

    ghost view = { λ roll. record { version = roll.version; students = roll.students.items } };

    ghost invariant = { λ roll. KeepsStudents roll.names.keys (record { version = roll.version; students = roll.students.items }) };
}

impl Roll {
    /// The roll of one student, with these caps, base 0 and nothing carried over, as a table of
    /// version 1 has it.
    pub fn single(alloc: Global, name: Name, credits: u16, courses: u8) -> Result<Roll, NoMemory>
        requires credits { credits ≤ MAX_CREDITS }
        requires courses { courses ≤ MAX_COURSES }
        ensures { IfOk result
            (λ roll. roll
            ≡ record {
              version = 1;
              students = single_student (name_bytes name) credits courses ∷ [];
            }) }
    {
        let mut names = IndexSet::new(alloc);
        let mut students = Vec::new(alloc);
        if names.insert(name).is_err() {
            return Err(NoMemory);
        }
        students.push(Entry {
            name,
            base: 0,
            credits,
            courses,
            carry: 0,
        })?;
        Ok(Roll {
            version: 1,
            names,
            students,
        })
    }

    /// The roll of these rows of a table: its version, and the students in file order.
    pub(crate) fn of_rows(rows: Rows<Entry>) -> Roll
        requires { KeepsStudents rows.names.keys
            (record { version = rows.version; students = rows.rows.items }) }
        ensures { result ≡ record { version = rows.version; students = rows.rows.items } }
    {
        Roll {
            version: rows.version as u8,
            names: rows.names,
            students: rows.rows,
        }
    }

    /// Another roll that is equal to this one, or that memory is wanting.
    pub fn copy(&self, alloc: Global) -> Result<Roll, NoMemory>
        ensures { IfOk result (λ roll. roll ≡ self.now) }
    {
        Ok(Roll {
            version: self.version,
            names: self.names.clone()?,
            students: self.students.to_vec(alloc)?,
        })
    }

    /// The version of the roll's table: 1, in which nothing is carried over, or 2.
    pub fn version(&self) -> u8
        ensures version { result ≡ self.now.version }
        ensures some { 1 ≤ result }
        ensures known { result ≤ 2 }
    {
        self.version
    }

    /// How many students there are.
    pub fn len(&self) -> u16
        ensures len { result ≡ length self.now.students }
        ensures roll { IsRoll self.now }
    {
        self.students.len() as u16
    }

    /// Whether there is no student.
    pub fn is_empty(&self) -> bool
        ensures { result ≡ (length self.now.students == 0) }
    {
        self.students.is_empty()
    }

    /// The student's name.
    pub fn name(&self, student: StudentNo) -> Name
        requires { student.0 < length self.now.students }
        ensures { option_map (λ s. s.name) (slice_get self.now.students student.0)
            ≡ Some (name_bytes result) }
    {
        self.students[usize::from(student.0)].name
    }

    /// The student's base in tokens, on which the budget is drawn: at most 900,000.
    pub fn base(&self, student: StudentNo) -> u32
        requires { student.0 < length self.now.students }
        ensures base { option_map (λ s. s.base) (slice_get self.now.students student.0)
            ≡ Some result }
        ensures range { result ≤ MAX_BASE }
    {
        self.students[usize::from(student.0)].base
    }

    /// The tokens that the student carries over: with the base at most 900,000.
    pub fn carry(&self, student: StudentNo) -> u32
        requires { student.0 < length self.now.students }
        ensures carry { option_map (λ s. s.carry) (slice_get self.now.students student.0)
            ≡ Some result }
        ensures range { (slice_index_or self.now.students student.0 no_student).base + result
            ≤ MAX_BASE }
    {
        self.students[usize::from(student.0)].carry
    }

    /// The most credits that the student may have, at most 800.
    pub fn credits(&self, student: StudentNo) -> u16
        requires { student.0 < length self.now.students }
        ensures credits { option_map (λ s. s.credits) (slice_get self.now.students student.0)
            ≡ Some result }
        ensures range { result ≤ MAX_CREDITS }
    {
        self.students[usize::from(student.0)].credits
    }

    /// The most sections that the student may have, at most 8.
    pub fn courses(&self, student: StudentNo) -> u8
        requires { student.0 < length self.now.students }
        ensures courses { option_map (λ s. s.courses) (slice_get self.now.students student.0)
            ≡ Some result }
        ensures range { result ≤ MAX_COURSES }
    {
        self.students[usize::from(student.0)].courses
    }

    /// The student of this name, or `None` exactly where no student has it.
    pub fn find(&self, name: &Name) -> Option<StudentNo>
        ensures place { option_map (λ s. s.0) result
            ≡ position (bytes_eq (name_bytes name.now)) (names_of self.now.students) }
        ensures found { IfSome result
            (λ s. slice_get (names_of self.now.students) s.0 ≡ Some (name_bytes name.now)) }
        ensures within { IfSome result (λ s. s.0 < length self.now.students) }
    {
        match place_of(&self.names, name) {
            Some(place) => Some(StudentNo(place as u16)),
            None => None,
        }
    }
}
