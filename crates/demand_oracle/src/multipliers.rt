// What a token and a credit are counted for, so that little can be reached.
//
// At each multiplier of a resource, what its rest is worth and the greatest values together are a
// bound. As a function of the multiplier this is convex and made of straight lines, and the best
// multiplier is at its lowest point. Two lines are kept, one that falls there and one that rises;
// the multiplier at which they meet is tried, and its line takes the place of one of the two, twice;
// then that at which they meet is taken. Any multipliers are right: these only make the search
// short.
ghost use Rattle.std.specs.Prelude.{◌≤◌, ◌^◌};
ghost use Rattle.market_units.specs.declared.limits.TheConstants.{MAX_COURSES};

use crate::places::fitting;
use crate::tables::{MILLION, PLACES, ROWS};
use bundle_bounds::{Offer, price_of_place};
use market_units::{MAX_COURSES, MAX_RATINGS};

/// What a token of the price and a credit are counted for, in millionths of a point of utility.
#[derive(Clone, Copy, Debug)]
pub struct Multipliers {
    pub money: u64,
    pub credits: u64,
    ghost money_low: { money ≤ 2 ^ 28 },
    ghost credits_low: { credits ≤ 2 ^ 28 },
}

const HIGHEST_MULTIPLIER: u64 = 1 << 28;

// How often two lines are made to meet.
const MEETINGS: usize = 3;

// At most this many places are picked.
const COURSES: usize = MAX_COURSES as usize;

// What may be scarce.
#[derive(Clone, Copy)]
enum Scarce {
    Money,
    Credits,
}

// The most that an allowed place can add, in millionths of a point of utility, its price and its
// credits.
#[derive(Clone, Copy)]
struct Item {
    most_added: u64,
    price: u32,
    credits: u32,
}

const NO_ITEM: Item = Item {
    most_added: 0,
    price: 0,
    credits: 0,
};

// The items, and how many of them are picked at most: no more than 8.
#[derive(Clone, Copy)]
struct Stock<'i> {
    items: &'i [Item],
    count: usize,
    ghost few: { count ≤ MAX_COURSES },
}

// One of the greatest values at some multipliers, and what its place takes of a resource.
#[derive(Clone, Copy)]
struct Pick {
    value: u64,
    taken: u32,
}

const NO_PICK: Pick = Pick { value: 0, taken: 0 };

// What the places of the greatest values are worth but for the resource, and what they take of it.
#[derive(Clone, Copy)]
struct Line {
    worth: u64,
    taken: u64,
}

/// What a token and a credit are counted for, in the tables of what can be reached. Any multipliers
/// are right; with these the tables have small numbers, so that much is pruned.
pub(crate) fn multipliers_at(
    offer: &Offer,
    hopes: &[[u16; PLACES]; ROWS],
    lightest: u16,
) -> Multipliers {
    let menu = offer.menu;
    let mut items = [NO_ITEM; PLACES];
    let len = items_of(offer, hopes, &mut items);
    let credits = u32::from(menu.credits());
    let count = fitting(menu.courses().min(MAX_COURSES), credits, lightest);
    let stock = Stock {
        items: &items[..len],
        count: usize::from(count),
    };
    let free = Multipliers {
        money: 0,
        credits: 0,
    };
    let paid = meeting_multiplier(stock, Scarce::Money, free, offer.budget.0);
    meeting_multiplier(stock, Scarce::Credits, paid, credits)
}

// These multipliers with one of the resource at which its rest is just taken, or 0 where all of the
// greatest values fit.
fn meeting_multiplier(
    stock: Stock,
    scarce: Scarce,
    multipliers: Multipliers,
    rest: u32,
) -> Multipliers {
    let mut low = line_at(stock, scarce, multipliers);
    let mut high = Line { worth: 0, taken: 0 };
    let mut met = multipliers;
    for meeting in 1..MEETINGS + 1 {
        if low.taken <= u64::from(rest) || low.taken <= high.taken {
            return met;
        }
        let multiplier = low.worth.saturating_sub(high.worth) / (low.taken - high.taken);
        met = with_multiplier(multipliers, scarce, multiplier.min(HIGHEST_MULTIPLIER));
        // No line is wanted of the last one.
        if meeting == MEETINGS {
            return met;
        }
        let line = line_at(stock, scarce, met);
        if line.taken > u64::from(rest) {
            low = line;
        } else {
            high = line;
        }
    }
    met
}

fn with_multiplier(multipliers: Multipliers, scarce: Scarce, multiplier: u64) -> Multipliers
    requires { multiplier ≤ 2 ^ 28 }
{
    match scarce {
        Scarce::Money => Multipliers {
            money: multiplier,
            credits: multipliers.credits,
        },
        Scarce::Credits => Multipliers {
            money: multipliers.money,
            credits: multiplier,
        },
    }
}

// The line of the greatest values at these multipliers.
fn line_at(stock: Stock, scarce: Scarce, multipliers: Multipliers) -> Line {
    let mut picks = [NO_PICK; COURSES];
    for item in stock.items {
        put(
            &mut picks[..stock.count],
            pick_of(item, scarce, multipliers),
        );
    }
    let multiplier = match scarce {
        Scarce::Money => multipliers.money,
        Scarce::Credits => multipliers.credits,
    };
    sum_of(&picks, multiplier)
}

fn pick_of(item: &Item, scarce: Scarce, multipliers: Multipliers) -> Pick {
    let paid = multipliers.money * u64::from(item.price)
        + multipliers.credits * u64::from(item.credits);
    Pick {
        value: item.most_added.saturating_sub(paid),
        taken: match scarce {
            Scarce::Money => item.price,
            Scarce::Credits => item.credits,
        },
    }
}

// Puts a pick among the greatest, of which the least falls out.
fn put(picks: &mut [Pick], pick: Pick) {
    // Most picks are worth no more than the least.
    match picks.last() {
        Some(least) if least.value < pick.value => {}
        _ => return,
    }
    for i in (1..picks.len()).rev() {
        if picks[i - 1].value >= pick.value {
            picks[i] = pick;
            return;
        }
        picks[i] = picks[i - 1];
    }
    picks[0] = pick;
}

fn sum_of(picks: &[Pick], multiplier: u64) -> Line {
    let mut line = Line { worth: 0, taken: 0 };
    for pick in picks {
        let worth = pick
            .value
            .saturating_add(multiplier.saturating_mul(u64::from(pick.taken)));
        line = Line {
            worth: line.worth.saturating_add(worth),
            taken: line.taken.saturating_add(u64::from(pick.taken)),
        };
    }
    line
}

// The allowed places, of which so many are written.
fn items_of(offer: &Offer, hopes: &[[u16; PLACES]; ROWS], items: &mut [Item; PLACES]) -> usize
    ensures { result ≤ MAX_RATINGS }
{
    let menu = offer.menu;
    let mut count = 0;
    for place in 0..menu.len() {
        let rated = menu.rated(place);
        if offer.allowed.has(rated.section) {
            let hoped = hopes[usize::from(place) + 1][usize::from(place)];
            items[count] = Item {
                most_added: MILLION * (u64::from(rated.rating) + u64::from(hoped)),
                price: price_of_place(menu, offer.prices, place),
                credits: u32::from(rated.credits),
            };
            count += 1;
        }
    }
    count
}
