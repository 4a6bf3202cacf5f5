// What the posted bundles of one version add up to.
ghost use Rattle.std.specs.Prelude.{◌≡◌, ◌≤◌, ◌+◌, ◌-◌, if◌then◌else◌, Some};
ghost use Rattle.price_board.specs.{Settling.is_asked, Settling.is_decided, Tallies.exceeds_by};

use crate::round::Ask;
use bundle_rules::Bundle;
use market_units::MAX_STUDENTS;

/// For how many students of a version none was posted, and how many of its posted bundles have the
/// section that is asked of.
#[derive(Clone, Copy)]
pub struct Tally {
    pub unfilled: u32,
    pub count: u32,
}

/// Whether the version of this tally is settled.
pub(crate) fn settles(ask: Ask, tally: Tally) -> bool
    requires { (tally.unfilled ≤ MAX_STUDENTS) × (tally.count ≤ MAX_STUDENTS) }
    ensures { result ≡ is_decided ask tally.unfilled tally.count }
{
    match ask {
        Ask::Counts => tally.unfilled == 0,
        Ask::Exceeds { section: _, limit } => {
            tally.count > limit || tally.count + tally.unfilled <= limit
        }
    }
}

/// The tally after one more bundle.
pub(crate) fn with_bundle(ask: Ask, tally: Tally, bundle: &Bundle) -> Tally
    requires { (1 ≤ tally.unfilled) × (tally.count ≤ MAX_STUDENTS) }
    ensures { result
        ≡ record {
          unfilled = tally.unfilled - 1;
          count = tally.count + (if is_asked ask (Some bundle.now) then 1 else 0);
        } }
{
    let has_it = match ask {
        Ask::Counts => false,
        Ask::Exceeds { section, limit: _ } => bundle.has(section),
    };
    Tally {
        unfilled: tally.unfilled - 1,
        count: if has_it { tally.count + 1 } else { tally.count },
    }
}

/// Whether more of the posted bundles than the limit have the section, where that is asked.
pub(crate) fn exceeds_by(ask: Ask, tally: Tally) -> Option<bool>
    ensures { result ≡ exceeds_by ask tally }
{
    match ask {
        Ask::Counts => None,
        Ask::Exceeds { section: _, limit } => Some(tally.count > limit),
    }
}
