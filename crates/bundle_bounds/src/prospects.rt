// What is known of open places, and what one of each course can add at most.
ghost use Rattle.std.specs.Prelude.{◌≡◌, ◌≤◌, ◌<◌, ◌^◌, ◌*◌, ◌+◌, ◌-◌, ◌==◌, if◌then◌else◌, max, length, All};
ghost use Rattle.market_units.specs.declared.limits.TheConstants.{MAX_RATINGS};
ghost use Rattle.bundle_bounds.specs.Bounds.{over_price, at_price};
ghost use Rattle.bundle_bounds.specs.Courses.{takes_of, greatest, by_course};
ghost use Rattle.bundle_bounds.specs.{Modest.IsModest, Peaks.IsPeak};

use crate::words::{is_in, with};
use market_units::MAX_RATINGS;

/// What a bundle takes of: the budget, the credits, the number of sections.
#[derive(Clone, Copy, Debug, PartialEq, Eq)]
pub(crate) enum Resource {
    Money,
    Credits,
    Count,
}

/// A resource at a price: thousandths of a point of utility for each token, credit or section, at
/// most 20,000,000.
#[derive(Clone, Copy)]
pub(crate) struct Rate {
    pub(crate) resource: Resource,
    pub(crate) price: u64,
    ghost high: { price ≤ 20000000 },
}

/// An open place: the first place of its course, by which courses are told apart, its credits, the
/// most that it can add to the utility, and its price. In this order it takes 12 bytes.
#[derive(Clone, Copy, Debug)]
pub(crate) struct Prospect {
    pub(crate) place: u8,
    pub(crate) course: u8,
    pub(crate) credits: u16,
    pub(crate) worth: u32,
    pub(crate) price: u32,
}

/// What is known of open places, at most 60, each within its range.
#[derive(Clone, Copy)]
pub(crate) struct Prospects<'p> {
    pub(crate) list: &'p [Prospect],
    ghost modest: { All IsModest list.now },
    ghost few: { length list.now ≤ MAX_RATINGS },
}

// Room for what is known of the open places of a menu.
pub(crate) const NO_PROSPECTS: [Prospect; MAX_RATINGS] = [Prospect {
    place: 0,
    course: 0,
    worth: 0,
    price: 0,
    credits: 0,
}; MAX_RATINGS];

/// How much the place takes of a resource: its price in tokens, its credits, or 1 section.
pub(crate) fn takes(prospect: &Prospect, resource: Resource) -> u64
    ensures value { result ≡ takes_of resource prospect.now }
    ensures high { result < 2 ^ 32 }
{
    match resource {
        Resource::Money => u64::from(prospect.price),
        Resource::Credits => u64::from(prospect.credits),
        Resource::Count => 1,
    }
}

/// What is left over a price by a prospect, or at most by those of its course; and what is left over
/// the next price.
#[derive(Clone, Copy)]
pub(crate) struct Peak {
    pub(crate) course: u8,
    pub(crate) here: u64,
    pub(crate) after: u64,
}

/// 1000 times a prospect's worth, less the price of what it takes of the resource, 0 where that is
/// negative; and the same at the next price.
#[inline(always)]
pub(crate) fn peak_of(prospect: &Prospect, rate: Rate) -> Peak
    ensures course { result.course ≡ prospect.now.course }
    ensures here { result.here ≡ over_price rate.resource rate.price prospect.now }
    ensures after { result.after ≡ over_price rate.resource (rate.price + 1) prospect.now }
{
    let taken = takes(prospect, rate.resource);
    let here = (1000 * u64::from(prospect.worth)).saturating_sub(rate.price * taken);
    Peak {
        course: prospect.course,
        here,
        after: here.saturating_sub(taken),
    }
}

/// The price times what is left of the resource, and for each course the greatest `over_price` of
/// its open places, added up.
#[inline(always)]
pub(crate) fn at_price(all: &Prospects, rate: Rate, rest: u32) -> u64
    ensures value { result ≡ at_price rate.resource rest rate.price all.now.list.now }
    ensures high { result ≤ 20000000 * rest + 20000000 * MAX_RATINGS }
{
    at_two_prices(all, rate, rest).0
}

/// What `at_price` gives at this price, and what it gives at the price that is greater by 1.
#[inline(always)]
pub(crate) fn at_two_prices(all: &Prospects, rate: Rate, rest: u32) -> (u64, u64)
    ensures here { result.0 ≡ at_price rate.resource rest rate.price all.now.list.now }
    ensures after { result.1 ≡ at_price rate.resource rest (rate.price + 1) all.now.list.now }
    ensures high { result.0 ≤ 20000000 * rest + 20000000 * MAX_RATINGS }
{
    let (here, after) = add_up_twice(all, rate);
    let rest = u64::from(rest);
    (rate.price * rest + here, (rate.price + 1) * rest + after)
}

// For each course the most that is left over the price, added up; and the same at the next price.
#[inline(always)]
fn add_up_twice(all: &Prospects, rate: Rate) -> (u64, u64)
    ensures here { result.0 ≡ by_course (over_price rate.resource rate.price) all.now.list.now }
    ensures after { result.1
        ≡ by_course (over_price rate.resource (rate.price + 1)) all.now.list.now }
    ensures high { result.0 ≤ 20000000 * length all.now.list.now }
    ensures after_high { result.1 ≤ 20000000 * length all.now.list.now }
{
    let list = all.list;
    let mut courses = 0;
    let mut last = Peak {
        course: 0,
        here: 0,
        after: 0,
    };
    let mut sum = 0;
    let mut next = 0;
    for index in (0..list.len()).rev() {
        let prospect = &list[index];
        let own = peak_of(prospect, rate);
        if !is_in(courses, prospect.course) {
            sum += own.here;
            next += own.after;
            last = own;
            courses = with(courses, prospect.course);
            continue;
        }
        let more = &list[index + 1..];
        let most = peak_behind(more, rate, prospect.course, last);
        sum += own.here.saturating_sub(most.here);
        next += own.after.saturating_sub(most.after);
        last = higher(own, most);
    }
    (sum, next)
}

// The peak of a course among those behind a prospect, where that of the first one's course is at
// hand. Sections of one course mostly stand side by side.
#[inline(always)]
fn peak_behind(more: &[Prospect], rate: Rate, course: u8, last: Peak) -> Peak
    requires { IsPeak rate.resource rate.price last.course more.now last }
    ensures { IsPeak rate.resource rate.price course more.now result }
{
    if course == last.course {
        return last;
    }
    peak_among(more, rate, course)
}

// The higher one of two peaks of one course, at each of the two prices.
#[inline(always)]
fn higher(own: Peak, most: Peak) -> Peak
    ensures course { result.course ≡ own.course }
    ensures here { result.here ≡ max own.here most.here }
    ensures after { result.after ≡ max own.after most.after }
{
    Peak {
        course: own.course,
        here: own.here.max(most.here),
        after: own.after.max(most.after),
    }
}

/// The peak of a course among these.
pub(crate) fn peak_among(prospects: &[Prospect], rate: Rate, course: u8) -> Peak
    ensures { IsPeak rate.resource rate.price course prospects.now result }
{
    let mut here = 0;
    let mut after = 0;
    for prospect in prospects {
        let own = peak_in(prospect, rate, course);
        here = here.max(own.here);
        after = after.max(own.after);
    }
    Peak {
        course,
        here,
        after,
    }
}

// What is left over the price by a prospect of the course; nothing by one of another.
fn peak_in(prospect: &Prospect, rate: Rate, course: u8) -> Peak
    ensures here { result.here
        ≡ (if prospect.now.course == course then over_price rate.resource rate.price prospect.now
        else 0) }
    ensures after { result.after
        ≡ (if prospect.now.course == course
        then over_price rate.resource (rate.price + 1) prospect.now else 0) }
{
    if prospect.course == course {
        peak_of(prospect, rate)
    } else {
        Peak {
            course,
            here: 0,
            after: 0,
        }
    }
}
