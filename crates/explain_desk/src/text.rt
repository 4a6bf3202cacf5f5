// The text of an explanation.
ghost use Rattle.std.specs.Prelude.{◌≡◌, ◌<◌, All, IfOk, IfSome, length};
ghost use Rattle.market_units.specs.Name.{name_bytes};
ghost use Rattle.bundle_rules.specs.{Bundles.sections_of, Menus.wishes_of, Wishes.AllRated};
ghost use Rattle.course_catalog.specs.Sections.{section_names};
ghost use Rattle.explain_desk.specs.{Texts.NamesBelow, Texts.explained_text, Views.explained_of};

use crate::Explained;
use crate::lines::{put_best, put_lost, put_reason, put_tree};
use bundle_rules::{Bundle, Menu, utility};
use course_catalog::Catalog;
use market_units::{Name, NoMemory, SectionNo};
use std::alloc::Global;

/// The text of what a student is told of a section, who has this menu and this bundle. The section,
/// the one that the reason names and those of the menu are in the catalogue; the sections of both
/// bundles are on the menu. `NoMemory` comes for want of memory alone.
pub fn put_explained(
    alloc: Global,
    catalog: &Catalog,
    student: Name,
    section: SectionNo,
    menu: &Menu,
    bundle: &Bundle,
    explained: &Explained,
) -> Result<Vec<u8>, NoMemory>
    requires section { section.0 < length catalog.now.sections }
    requires reason { NamesBelow (length catalog.now.sections) explained.now.reason }
    requires menu { All (λ rated. rated.section.0 < length catalog.now.sections) menu.now.places }
    requires bundle { AllRated (wishes_of menu.now) (sections_of bundle.now) }
    requires best { IfSome explained.now.best
        (λ proved. AllRated (wishes_of menu.now) (sections_of proved.bundle)) }
    ensures { IfOk result
        (λ text. text.items
        ≡ explained_text (section_names catalog.now.sections) menu.now (name_bytes student)
        section.0 (sections_of bundle.now) (explained_of explained.now)) }
{
    let mut text = Vec::new(alloc);
    put_reason(&mut text, catalog, student, section, explained.reason)?;
    let Some(best) = &explained.best else {
        return Ok(text);
    };
    let worth = i64::from(utility(menu, &best.bundle));
    let lost = i64::from(utility(menu, bundle)) - worth;
    put_best(alloc, &mut text, catalog, &best.bundle, worth)?;
    put_lost(alloc, &mut text, lost)?;
    put_tree(&mut text, &best.tree)?;
    Ok(text)
}
