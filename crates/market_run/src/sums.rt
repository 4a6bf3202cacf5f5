// Sums over a publication. Seats and bytes are added up in 128 bits: memory alone bounds how many
// there are, and no list of numbers of 64 bits can overflow it.
ghost use Rattle.std.specs.Prelude.{◌≡◌, ◌≤◌, ◌*◌, ◌^◌, ◌≤ℤ◌, pos, neg_ℤ, length, map};
ghost use Rattle.market_units.specs.Totals.{total};
ghost use Rattle.bundle_rules.specs.Bundles.{sections_of};
ghost use Rattle.market_certificate.specs.Views.{proved_of, turn_of};
ghost use Rattle.market_run.specs.Sums.{AreRatedBy, worth_by_menus};

use bundle_rules::{Bundle, Menu, utility};
use market_certificate::{Proved, ProvedTurn};
use market_units::MAX_STUDENTS;

/// The used seats of all sections together. Of each pair the used seats come first.
pub(crate) fn used_seats(used: &[(u16, u16)]) -> u128
    ensures { result ≡ total (λ seats. seats.0) used.now }
{
    let mut count = 0;
    'sections: for seats in used {
        count += u128::from(seats.0);
    }
    count
}

/// How many bytes the trees of these bundles have together.
pub(crate) fn bundle_trees(bundles: &[Proved]) -> u128
    ensures value { result ≡ total (λ proved. length proved.tree) (map proved_of bundles.now) }
    ensures most { result ≤ 2 ^ 64 * length bundles.now }
{
    let mut bytes = 0;
    'bundles: for proved in bundles {
        bytes += proved.tree.len() as u128;
    }
    bytes
}

/// How many bytes the trees of these turns have together.
pub(crate) fn turn_trees(turns: &[ProvedTurn]) -> u128
    ensures value { result ≡ total (λ turn. length turn.tree) (map turn_of turns.now) }
    ensures most { result ≤ 2 ^ 64 * length turns.now }
{
    let mut bytes = 0;
    'turns: for turn in turns {
        bytes += turn.tree.len() as u128;
    }
    bytes
}

/// The utilities of the bundles, added up, each by the menu at the same place.
pub(crate) fn worth(menus: &[Menu], bundles: &[Bundle]) -> i64
    requires few { length menus.now ≤ MAX_STUDENTS }
    requires rated { AreRatedBy menus.now (map sections_of bundles.now) }
    ensures value { result ≡ worth_by_menus menus.now (map sections_of bundles.now) }
    ensures low { neg_ℤ (pos (2 ^ 31 * length menus.now)) ≤ℤ result }
    ensures high { result ≤ℤ pos (2 ^ 31 * length menus.now) }
{
    match menus {
        [] => 0,
        [menu, more @ ..] => match bundles {
            [] => 0,
            [bundle, others @ ..] => i64::from(utility(menu, bundle)) + worth(more, others),
        },
    }
}
