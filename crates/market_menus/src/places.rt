// The rated sections of a student.
ghost use Rattle.std.specs.Prelude.{◌≡◌, ◌<◌, ◌≤◌, All, IfOk, length, map};
ghost use Rattle.market_units.specs.declared.limits.TheConstants.{MAX_RATINGS};
ghost use Rattle.preference_desk.specs.Rows.{rating_entry};
ghost use Rattle.market_menus.specs.MenusOf.{rated_of};

use bundle_rules::Rated;
use course_catalog::Catalog;
use market_units::{NoMemory, SectionNo};
use std::alloc::Global;

/// The places of a menu, at most 60, with the catalogue of their sections.
#[derive(Clone, Copy)]
pub(crate) struct Places<'a> {
    pub(crate) catalog: &'a Catalog,
    pub(crate) rated: &'a [Rated],
    ghost few: { length rated.now ≤ MAX_RATINGS },
    ghost sections: { All (λ rated. rated.section.0 < length catalog.now.sections) rated.now },
}

/// The places of a menu: the rated sections in their order, with the catalogue's courses and
/// credits. The only error is that memory was not given.
pub(crate) fn places_of(
    alloc: Global,
    catalog: &Catalog,
    ratings: &[(SectionNo, u8)],
) -> Result<Vec<Rated>, NoMemory>
    requires { All (λ rating. rating.0.0 < length catalog.now.sections) ratings.now }
    ensures { IfOk result
        (λ places. places.items
        ≡ map (λ rating. rated_of catalog.now.sections (rating_entry rating)) ratings.now) }
{
    let mut places = Vec::with_capacity(alloc, ratings.len())?;
    'ratings: for (section, rating) in ratings {
        places.push(Rated {
            section: *section,
            course: catalog.course(*section),
            rating: *rating,
            credits: catalog.credits(*section),
        })?;
    }
    Ok(places)
}
