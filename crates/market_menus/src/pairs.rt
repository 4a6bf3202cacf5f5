// The adjusted pairs of a student both of whose sections are rated.
ghost use Rattle.std.specs.Prelude.{◌≡◌, IfOk};
ghost use Rattle.std.specs.List.{filter_map};
ghost use Rattle.preference_desk.specs.Rows.{pair_entry};
ghost use Rattle.market_menus.specs.PairPlaces.{place_among, pair_among};

use crate::places::Places;
use bundle_rules::place_among;
use market_units::{NoMemory, SectionNo};
use std::alloc::Global;

/// The adjustments of those pairs whose two sections both have places, in their order; each names
/// the two places instead of the sections. The only error is that memory was not given.
pub(crate) fn pairs_of(
    alloc: Global,
    places: &Places,
    pairs: &[(SectionNo, SectionNo, i16)],
) -> Result<Vec<(u8, u8, i16)>, NoMemory>
    ensures { IfOk result
        (λ kept. kept.items
        ≡ filter_map (λ pair. pair_among places.now.rated.now (pair_entry pair)) pairs.now) }
{
    let mut kept = Vec::with_capacity(alloc, pairs.len())?;
    'pairs: for pair in pairs {
        if let Some(pair) = pair_among(places, *pair) {
            kept.push(pair)?;
        }
    }
    Ok(kept)
}

// The places of the two sections, with their adjustment, where both have one.
fn pair_among(places: &Places, pair: (SectionNo, SectionNo, i16)) -> Option<(u8, u8, i16)>
    ensures { result ≡ pair_among places.now.rated.now (pair_entry pair) }
{
    let (first, second, adjustment) = pair;
    let first_place = place_of(places, first)?;
    let second_place = place_of(places, second)?;
    Some((first_place, second_place, adjustment))
}

// The place of the section, where it has one.
fn place_of(places: &Places, section: SectionNo) -> Option<u8>
    ensures { result ≡ place_among places.now.rated.now section.0 }
{
    let place = place_among(places.rated, section);
    if place < places.rated.len() {
        Some(place as u8)
    } else {
        None
    }
}
