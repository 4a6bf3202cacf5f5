// The rows of a menu in the order of a search.
ghost use Rattle.std.specs.Prelude.{◌≡◌, ◌<◌, ◌≤◌, All, length};
ghost use Rattle.market_units.specs.declared.limits.TheConstants.{MAX_COURSES};
ghost use Rattle.bundle_rules.specs.{Bundles.sections_of, Menus.wishes_of, Wishes.AllRated};
ghost use Rattle.bundle_rules.specs.{Ordinals.ordinals, Sets.IsAscending};
ghost use Rattle.bundle_rules.specs.{Ranks.IsRenamed, Ranks.named, Ranks.rank_of, Ranks.position_of, OneProofs.IsRenamed-prop};

use crate::{Bundle, Rows};
use market_units::{MAX_RATINGS, SectionNo};

// At most this many places are on a menu.
const PLACES: u8 = MAX_RATINGS as u8;

/// The rows of a menu, and the same rows in the order in which a search tries the places: those with
/// a positive adjustment first, and of each kind the highest rated first. There each section is
/// named by its position, from 0 on.
// A search finds the same bundle in any order, sooner in this one, so no fact asks for it.
#[derive(Clone, Copy)]
pub struct Ranked<'m> {
    pub menu: &'m Rows,
    /// The rows in that order.
    pub rows: &'m Rows,
    /// The place of the menu at each position.
    pub order: &'m [u8],
    pub ghost renamed: { IsRenamed order.now menu.now rows.now } by { IsRenamed-prop order.now menu.now rows.now },
}

impl Ranked<'_> {
    /// The bundle of the sections whose positions are the sections of this one.
    pub fn named(&self, positions: &Bundle) -> Bundle
        requires { AllRated (wishes_of self.now.rows.now) (sections_of positions.now) }
        ensures { sections_of result
            ≡ named self.now.menu.now self.now.order.now (sections_of positions.now) }
    {
        prove!(self.menu.len() <= PLACES);
        prove!(self.rows.len() <= PLACES);
        named_from(self, positions.sections())
    }

    /// The position of a section of the menu, or the number of positions where it has none.
    pub fn position(&self, section: SectionNo) -> u8
        ensures value { result ≡ rank_of self.now.menu.now self.now.order.now section.0 }
        ensures within { result ≤ length self.now.menu.now.places }
    {
        prove!(self.menu.len() <= PLACES);
        position_of(self.order, self.menu.place(section)) as u8
    }
}

// The sections at these positions, at most 8 of them.
fn named_from(ranked: &Ranked, positions: &[SectionNo]) -> Bundle
    requires few { length positions.now ≤ MAX_COURSES }
    requires distinct { IsAscending (ordinals positions.now) }
    requires on_menu { All (λ position. position.0 < length ranked.now.menu.now.places) positions.now }
    ensures { sections_of result
        ≡ named ranked.now.menu.now ranked.now.order.now (ordinals positions.now) }
{
    prove!(ranked.menu.len() <= PLACES);
    prove!(ranked.rows.len() <= PLACES);
    match positions {
        [] => Bundle::empty(),
        [position, more @ ..] => {
            let place = ranked.order[usize::from(position.0)];
            named_from(ranked, more).put(ranked.menu.rated(place).section)
        }
    }
}

/// The position of a place in an order, or the number of positions where it has none.
pub(crate) fn position_of(order: &[u8], place: u8) -> usize
    ensures value { result ≡ position_of order.now place }
    ensures within { result ≤ length order.now }
{
    match order {
        [] => 0,
        [first, more @ ..] => {
            if *first == place {
                0
            } else {
                position_of(more, place) + 1
            }
        }
    }
}
