// What a text takes of the catalogue and of the roll.
ghost use Rattle.std.specs.Prelude.{◌≡◌, ◌≢◌, ◌<◌, ℕ, IfOk, IfSome, IfNone, length, map};
ghost use Rattle.std.proofs.Props.{props};
ghost use Rattle.market_units.specs.Name.{name_bytes};
ghost use Rattle.course_catalog.specs.{Catalog.IsCatalog, Sections.section_names};
ghost use Rattle.student_roll.specs.Students.{IsRoll, names_of};
ghost use Rattle.market_certificate.specs.Tables.{AreTables, name_at, tables_of};

use course_catalog::Catalog;
use market_units::{Name, NoMemory, SectionNo, StudentNo, read_name};
use std::alloc::Global;
use student_roll::Roll;

/// The names of students and sections, in file order, and where each stands.
#[derive(Drop)]
pub(crate) struct TableNames<'a> {
    catalog: &'a Catalog,
    roll: &'a Roll,
    pub version: u64,
    pub students: Vec<Name>,
    pub sections: Vec<Name>,
    ghost of_roll: { map name_bytes students.items ≡ names_of roll.now.students },
    ghost of_catalog: { map name_bytes sections.items ≡ section_names catalog.now.sections },
    ghost are: { AreTables (record { version = version; students = map name_bytes students.items; sections = map name_bytes sections.items }) } by { Prim.hlevel props },
}

impl<'a> TableNames<'a> {
    ghost use Rattle.market_certificate.specs.Views.{seen};

    /// Of this catalogue and this roll.
    pub fn of(
        alloc: Global,
        catalog: &'a Catalog,
        roll: &'a Roll,
    ) -> Result<TableNames<'a>, NoMemory>
        ensures { IfOk result (λ tables. seen tables ≡ tables_of catalog.now roll.now) }
    {
        let students = student_names(alloc, roll)?;
        let sections = section_names(alloc, catalog)?;
        Ok(TableNames {
            catalog,
            roll,
            version: u64::from(catalog.version().max(roll.version())),
            students,
            sections,
        })
    }

    /// The student of these bytes' name.
    pub fn student(&self, bytes: &[u8]) -> Option<StudentNo>
        ensures within { IfSome result (λ student. student.0 < length (seen self.now).students) }
        ensures name { IfSome result
            (λ student. name_at (seen self.now).students student.0 ≡ bytes.now) }
        ensures none { IfNone result
            ((n : ℕ) → n < length (seen self.now).students
            → name_at (seen self.now).students n ≢ bytes.now) }
    {
        let name = read_name(bytes)?;
        self.roll.find(&name)
    }

    /// The section of these bytes' name.
    pub fn section(&self, bytes: &[u8]) -> Option<SectionNo>
        ensures within { IfSome result (λ section. section.0 < length (seen self.now).sections) }
        ensures name { IfSome result
            (λ section. name_at (seen self.now).sections section.0 ≡ bytes.now) }
        ensures none { IfNone result
            ((n : ℕ) → n < length (seen self.now).sections
            → name_at (seen self.now).sections n ≢ bytes.now) }
    {
        let name = read_name(bytes)?;
        self.catalog.find(&name)
    }
}

fn student_names(alloc: Global, roll: &Roll) -> Result<Vec<Name>, NoMemory>
    ensures names { IfOk result (λ names. map name_bytes names.items ≡ names_of roll.now.students) }
    ensures roll { IfOk result (λ names. IsRoll roll.now) }
{
    let mut names = Vec::with_capacity(alloc, usize::from(roll.len()))?;
    for student in 0..roll.len() {
        names.push(roll.name(StudentNo(student)))?;
    }
    Ok(names)
}

fn section_names(alloc: Global, catalog: &Catalog) -> Result<Vec<Name>, NoMemory>
    ensures names { IfOk result
        (λ names. map name_bytes names.items ≡ section_names catalog.now.sections) }
    ensures catalog { IfOk result (λ names. IsCatalog catalog.now) }
{
    let mut names = Vec::with_capacity(alloc, usize::from(catalog.len()))?;
    for section in 0..catalog.len() {
        names.push(catalog.name(SectionNo(section)))?;
    }
    Ok(names)
}
