// The catalogue.
ghost use Rattle.std.specs.Prelude.{◌≡◌, ◌≤◌, ◌<◌, ◌↔◌, All, IsTrue, IfOk, IfSome, length, map, option_map, position};
ghost use Rattle.std.specs.List.{IsDistinct};
ghost use Rattle.std.specs.Str.{bytes_eq};
ghost use Rattle.market_units.specs.Name.{name_bytes};
ghost use Rattle.table_records.specs.Reading.{bytes_of};
ghost use Rattle.timetable_rules.specs.Meetings.{meetings_of};
ghost use Rattle.course_catalog.specs.{Catalog.IsCatalog, Courses.course_number};
ghost use Rattle.course_catalog.specs.Sections.{SectionsClash, section_at, sections_clash};

use crate::courses::course_numbers;
use crate::rows::Row;
use indexmap::IndexSet;
use market_units::{Name, NoMemory, SectionNo};
use std::alloc::Global;
use std::marker::Model;
use table_records::{Rows, place_of};
use timetable_rules::{ClashTable, Meetings, Parts};

/// The sections of a term, in the order of the table: at most 400, of different names; and the
/// version of the table.
#[derive(Drop)]
pub struct Catalog {
    version: u8,
    names: IndexSet<Name>,
    rows: Vec<Row>,
    seats: Vec<u16>,
    courses: Vec<u16>,
    clashes: ClashTable,
}

impl Model for Catalog {
    ghost use Rattle.course_catalog.specs.Catalog.{CatalogData, KeepsCatalog};

    ghost Value = { CatalogData };

    ghost view = { λ catalog. record { version = catalog.version; sections = catalog.rows.items } };

    ghost invariant = { λ catalog.
        KeepsCatalog (record { version = catalog.version; sections = catalog.rows.items }) catalog.names.keys catalog.seats.items catalog.courses.items catalog.clashes };
}

impl Catalog {
    /// The catalogue of these rows.
    pub(crate) fn of(alloc: Global, read: Rows<Row>) -> Result<Catalog, NoMemory>
        requires catalog { IsCatalog
            (record { version = read.version; sections = read.rows.items }) }
        requires names { bytes_of read.names.keys ≡ map (λ section. section.name) read.rows.items }
        ensures { IfOk result
            (λ catalog. catalog ≡ record { version = read.version; sections = read.rows.items }) }
    {
        let Rows {
            version,
            names,
            rows,
        } = read;
        let courses = course_numbers(alloc, &rows)?;
        let seats = seats_of(alloc, &rows)?;
        let meetings = meetings_of_rows(alloc, &rows)?;
        let parts = parts_of_rows(alloc, &rows)?;
        let clashes = ClashTable::build(alloc, &meetings, &courses, &parts)?;
        Ok(Catalog {
            version: version as u8,
            names,
            rows,
            seats,
            courses,
            clashes,
        })
    }

    /// Another catalogue that is equal to this one, or that memory is wanting.
    pub fn copy(&self, alloc: Global) -> Result<Catalog, NoMemory>
        ensures { IfOk result (λ catalog. catalog ≡ self.now) }
    {
        Ok(Catalog {
            version: self.version,
            names: self.names.clone()?,
            rows: self.rows.to_vec(alloc)?,
            seats: self.seats.to_vec(alloc)?,
            courses: self.courses.to_vec(alloc)?,
            clashes: self.clashes.copy(alloc)?,
        })
    }

    /// The version of the catalogue's table: 1, in which each section runs in the whole term, or 2.
    pub fn version(&self) -> u8
        ensures version { result ≡ self.now.version }
        ensures some { 1 ≤ result }
        ensures known { result ≤ 2 }
    {
        self.version
    }

    /// How many sections there are.
    pub fn len(&self) -> u16
        ensures count { result ≡ length self.now.sections }
        ensures kept { IsCatalog self.now }
    {
        self.rows.len() as u16
    }

    /// The name of the section.
    pub fn name(&self, section: SectionNo) -> Name
        requires { section.0 < length self.now.sections }
        ensures { name_bytes result ≡ (section_at self.now.sections section.0).name }
    {
        self.rows[usize::from(section.0)].name
    }

    /// How many seats the section has: at most 9,999.
    pub fn seats(&self, section: SectionNo) -> u16
        requires { section.0 < length self.now.sections }
        ensures { result ≡ (section_at self.now.sections section.0).seats }
    {
        self.rows[usize::from(section.0)].seats
    }

    /// The seats of all sections, by ordinal.
    pub fn all_seats(&self) -> &[u16]
        ensures { result.now ≡ map (λ section. section.seats) self.now.sections }
    {
        &self.seats
    }

    /// The number of the section's course. Courses are numbered from 0 by the first occurrence of
    /// their names.
    pub fn course(&self, section: SectionNo) -> u16
        requires { section.0 < length self.now.sections }
        ensures { result
            ≡ course_number self.now.sections (section_at self.now.sections section.0).course }
    {
        self.courses[usize::from(section.0)]
    }

    /// The credits of the section: at most 100.
    pub fn credits(&self, section: SectionNo) -> u16
        requires { section.0 < length self.now.sections }
        ensures { result ≡ (section_at self.now.sections section.0).credits }
    {
        self.rows[usize::from(section.0)].credits
    }

    /// The parts of the term in which the section runs.
    pub fn parts(&self, section: SectionNo) -> Parts
        requires { section.0 < length self.now.sections }
        ensures { result ≡ (section_at self.now.sections section.0).parts }
    {
        self.rows[usize::from(section.0)].parts
    }

    /// Whether the sections clash: they are different, and have the same course, or share a part of
    /// the term and have meetings that overlap.
    pub fn clash(&self, a: SectionNo, b: SectionNo) -> bool
        requires first { a.0 < length self.now.sections }
        requires second { b.0 < length self.now.sections }
        ensures relation { IsTrue result ↔ SectionsClash self.now.sections a.0 b.0 }
        ensures test { result ≡ sections_clash self.now.sections a.0 b.0 }
    {
        self.clashes.clash(a, b)
    }

    /// The section with this name, or `None` exactly where no section has it.
    pub fn find(&self, name: &Name) -> Option<SectionNo>
        ensures place { option_map (λ section. section.0) result
            ≡ position (bytes_eq (name_bytes name.now)) (map (λ section. section.name) self.now.sections) }
        ensures found { IfSome result (λ section. section.0 < length self.now.sections) }
    {
        let place = place_of(&self.names, name)?;
        Some(SectionNo(place as u16))
    }
}

fn seats_of(alloc: Global, rows: &[Row]) -> Result<Vec<u16>, NoMemory>
    ensures { IfOk result (λ seats. seats.items ≡ map (λ section. section.seats) rows.now) }
{
    let mut seats = Vec::with_capacity(alloc, rows.len())?;
    for row in rows {
        seats.push(row.seats)?;
    }
    Ok(seats)
}

fn meetings_of_rows(alloc: Global, rows: &[Row]) -> Result<Vec<Meetings>, NoMemory>
    ensures { IfOk result
        (λ all. map meetings_of all.items ≡ map (λ section. section.meetings) rows.now) }
{
    let mut all = Vec::with_capacity(alloc, rows.len())?;
    for row in rows {
        all.push(row.meetings)?;
    }
    Ok(all)
}

fn parts_of_rows(alloc: Global, rows: &[Row]) -> Result<Vec<Parts>, NoMemory>
    ensures { IfOk result (λ all. all.items ≡ map (λ section. section.parts) rows.now) }
{
    let mut all = Vec::with_capacity(alloc, rows.len())?;
    for row in rows {
        all.push(row.parts)?;
    }
    Ok(all)
}
