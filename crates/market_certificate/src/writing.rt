// A publication written as its text.
ghost use Rattle.std.specs.Prelude.{◌≡◌, IfOk};
ghost use Rattle.market_certificate.specs.{Publications.IsPublication, Tables.tables_of};
ghost use Rattle.market_certificate.specs.{Texts.text_of, Views.publication_of};

mod blocks;
mod fields;
mod lines;

use crate::Publication;
use crate::amounts::Amount;
use crate::tables::TableNames;
use blocks::{put_allocation, put_amounts, put_bundles, put_seats, put_turns};
use course_catalog::Catalog;
pub(crate) use fields::put_comma_behind;
pub use fields::{put_field, put_number_field};
pub use lines::put_error;
use lines::{put_head, put_order};
use market_units::NoMemory;
use std::alloc::Global;
use student_roll::Roll;

/// The text of a publication of this catalogue and this roll: there is one value for each student
/// or each section, and each is in the ranges of the text. `NoMemory` comes where memory is wanted,
/// and has no other cause.
pub fn put_publication(
    alloc: Global,
    catalog: &Catalog,
    roll: &Roll,
    publication: &Publication,
) -> Result<Vec<u8>, NoMemory>
    requires { IsPublication (tables_of catalog.now roll.now) (publication_of publication.now) }
    ensures { IfOk result
        (λ text. text.items
        ≡ text_of (tables_of catalog.now roll.now) (publication_of publication.now)) }
{
    let tables = TableNames::of(alloc, catalog, roll)?;
    let students = &tables.students;
    let sections = &tables.sections;
    let mut text = Vec::new(alloc);
    put_head(&mut text, tables.version)?;
    put_order(&mut text, &publication.order)?;
    put_amounts(&mut text, Amount::Budget, students, &publication.budgets)?;
    put_amounts(&mut text, Amount::Start, sections, &publication.start)?;
    put_error(&mut text, publication.error)?;
    put_amounts(&mut text, Amount::Price, sections, &publication.prices)?;
    put_bundles(&mut text, sections, students, &publication.bundles)?;
    put_turns(&mut text, students, sections, &publication.turns)?;
    put_allocation(&mut text, sections, students, &publication.allocation)?;
    put_seats(&mut text, sections, &publication.used)?;
    text.extend_from_slice(b"end\n")?;
    Ok(text)
}
