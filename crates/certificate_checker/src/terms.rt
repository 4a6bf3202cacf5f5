// What a publication is checked by.
ghost use Rattle.std.specs.Prelude.{◌≡◌, IfOk};
ghost use Rattle.preference_desk.specs.DeskView.{names_of, entries_of};
ghost use Rattle.published_parts.specs.{Crowds.IsCrowdIn, Markets.names_in, Views.market_in};
ghost use Rattle.certificate_checker.specs.{Terms.terms_in, Views.terms_of};

use demand_api::Crowd;
use market_crowd::make_crowd;
use market_units::NoMemory;
use preference_desk::Desk;
use published_parts::Market;
use std::alloc::Global;

/// What a publication is checked by.
#[derive(Drop)]
pub(crate) struct Terms {
    /// The students with their menus, and their budgets before any raise.
    pub crowd: Crowd,
    /// The seats of each section.
    pub seats: Vec<u16>,
    /// By how many percent budgets rise in the aftermarket, 0 to 50.
    pub raise: u8,
}

/// What a check goes by in a market whose sessions' commands were posted at this desk, which is let
/// go. The error is want of memory.
pub(crate) fn terms_at(alloc: Global, market: &Market, desk: Desk) -> Result<Terms, NoMemory>
    requires { names_of desk ≡ names_in (market_in market.now) }
    ensures terms { IfOk result
        (λ terms. terms_of terms ≡ terms_in (market_in market.now) (terms_of terms).crowd) }
    ensures crowd { IfOk result
        (λ terms. IsCrowdIn (market_in market.now) (entries_of desk) (terms_of terms).crowd) }
{
    let crowd = make_crowd(
        alloc,
        market.catalog,
        market.roll,
        desk.closed(),
        market.settings.seed,
        market.settings.spread,
    )?;
    Ok(Terms {
        crowd,
        seats: market.catalog.all_seats().to_vec(alloc)?,
        raise: market.settings.raise,
    })
}
