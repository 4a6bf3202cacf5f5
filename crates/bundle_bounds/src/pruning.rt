// The bounds of the resources, and the first below a limit.
ghost use Rattle.std.specs.Prelude.{ℕ, List, ◌≡◌, ◌<◌, ◌≤◌, ◌≤ℤ◌, ◌↔◌, ◌++◌, ◌*◌, ◌/◌, ◌+ℤ◌, ◌<ℤ◌, ◌&&◌, ◌==◌, ℤ, nat_lt, true, pos, IsTrue, IfSome, IfNone, All};
ghost use Rattle.bundle_bounds.specs.Bounds.{leaf_of, at_price, resource_bounds, all_bounds, HasBound};
ghost use Rattle.market_units.specs.Totals.{total};
ghost use Rattle.bundle_bounds.specs.{Courses.takes_of, Courses.by_course, Known.IsKnown};
ghost use Rattle.bundle_bounds.specs.{Limits.NoneBelow, Limits.IsFirstBelow, Modest.IsModest};
ghost use Rattle.bundle_bounds.specs.Tangents.{IsTangent, AreTangents};
ghost use Rattle.bundle_bounds.specs.declared.prospects.Prospect.{Prospect};
ghost use Rattle.bundle_bounds.specs.declared.prospects.Resource.{Resource};

use crate::Leaf;
use crate::base::Base;
use crate::known::Known;
use crate::opens::Rests;
use crate::prospects::{Prospect, Prospects, Rate, Resource, at_price, at_two_prices, takes};
use crate::tangents::{Tangent, Tangents};

// The leaf of a resource by a place.
fn leaf_of(resource: Resource, place: u8) -> Leaf
    ensures { result ≡ leaf_of resource place }
{
    match resource {
        Resource::Money => Leaf::Budget(place),
        Resource::Credits => Leaf::Credits(place),
        Resource::Count => Leaf::Number(place),
    }
}

// By how much a bound of so much above the base is above the limit at least.
fn margin(base: Base, limit: i64, sum: u64) -> u64
    requires above { limit ≤ℤ (base.number +ℤ pos sum) }
    requires high { sum ≤ 1000000000000000000 }
    ensures above { (limit +ℤ pos result) ≤ℤ (base.number +ℤ pos sum) }
    ensures high { result ≤ sum }
{
    if limit < base.number {
        return sum;
    }
    sum - (limit - base.number) as u64
}

// A resource, and what the chosen places leave of it.
#[derive(Clone, Copy)]
struct Left {
    resource: Resource,
    rest: u32,
}

// Whether a prospect has a bound, and that is below the limit. What is known of the bounds grows
// where it is not, and what was computed for that is the last tangent.
#[inline(always)]
fn is_below(
    base: Base,
    limit: i64,
    left: Left,
    all: &Prospects,
    prospect: &Prospect,
    known: &mut Known,
    last: &mut Option<Tangent>,
) -> bool
    requires one_modest { IsModest prospect.now }
    requires known { IsKnown base.number limit left.rest left.resource all.now.list.now known.old }
    ensures below { IsTrue result ↔ (((nat_lt 0 prospect.now.worth && nat_lt 0 (takes_of left.resource prospect.now)) ≡ true)
        × ((base.number +ℤ pos (at_price left.resource left.rest (1000 * prospect.now.worth / takes_of left.resource prospect.now) all.now.list.now)) <ℤ limit)) }
    ensures known { IsKnown base.number limit left.rest left.resource all.now.list.now known.new }
    ensures last { IfSome last.old (IsTangent left.rest left.resource all.now.list.now)
        → IfSome last.new (IsTangent left.rest left.resource all.now.list.now) }
{
    let taken = takes(prospect, left.resource);
    let worth = 1000 * u64::from(prospect.worth);
    if known.has_ratio(worth, taken) {
        return false;
    }
    if prospect.worth == 0 || taken == 0 {
        return false;
    }
    let price = worth / taken;
    let rate = Rate {
        resource: left.resource,
        price,
    };
    let (sum, next) = at_two_prices(all, rate, left.rest);
    let bound = base.number + sum as i64;
    if bound < limit {
        return true;
    }
    if price < 20_000_000 {
        known.learn(price, sum, next, margin(base, limit, sum));
        *last = Some(Tangent { price, sum, next });
    }
    false
}

// Takes in what an earlier price and the next one make, where the bound at the first is not below
// the limit.
fn recall(known: &mut Known, base: Base, limit: i64, tangent: Tangent)
    requires price { tangent.price < 20000000 }
    requires sum { tangent.sum ≤ 1000000000000000000 }
    requires known { known.old.high ≤ 20000001 }
    ensures { (rest : ℕ) (resource : Resource) (all : List Prospect)
        → IsTangent rest resource all tangent
        → IsKnown base.number limit rest resource all known.old
        → IsKnown base.number limit rest resource all known.new }
{
    let bound = base.number + tangent.sum as i64;
    if bound < limit {
        return;
    }
    let above = margin(base, limit, tangent.sum);
    known.learn(tangent.price, tangent.sum, tangent.next, above);
}

// What the last tangent tells of the bounds.
fn known_by(base: Base, limit: i64, last: &Option<Tangent>) -> Known
    requires last { (rest : ℕ)
        × ((resource : Resource)
        × ((all : List Prospect) × IfSome last.now (IsTangent rest resource all))) }
    ensures { (rest : ℕ) (resource : Resource) (all : List Prospect)
        → IfSome last.now (IsTangent rest resource all)
        → IsKnown base.number limit rest resource all result }
{
    let mut known = Known::nothing();
    match last {
        Some(tangent) => recall(&mut known, base, limit, *tangent),
        None => {}
    }
    known
}

// Whether all of these together take no more than so much of the resource.
fn fits(some: &[Prospect], resource: Resource, rest: u64) -> bool
    ensures { IsTrue result → total (takes_of resource) some.now ≤ rest }
{
    match some {
        [] => true,
        [one, more @ ..] => {
            let taken = takes(one, resource);
            taken <= rest && fits(more, resource, rest - taken)
        }
    }
}

// The leaf of the first of all that has a bound below the limit, where the plain bound is not.
#[inline(always)]
fn first_of_resource(
    base: Base,
    limit: i64,
    left: Left,
    all: &Prospects,
    last: &mut Option<Tangent>,
) -> Option<Leaf>
    requires plain { limit
        ≤ℤ (base.number +ℤ pos (by_course (λ p. 1000 * p.worth) all.now.list.now)) }
    requires last { IfSome last.old (IsTangent left.rest left.resource all.now.list.now) }
    ensures first { IfSome result
        (IsFirstBelow limit
        (resource_bounds base.number left.rest left.resource all.now.list.now all.now.list.now)) }
    ensures none { IfNone result
        (NoneBelow limit
        (resource_bounds base.number left.rest left.resource all.now.list.now all.now.list.now)) }
    ensures last { IfSome last.new (IsTangent left.rest left.resource all.now.list.now) }
{
    if fits(all.list, left.resource, u64::from(left.rest)) {
        return None;
    }
    let mut known = known_by(base, limit, last);
    for prospect in all.list {
        if known.is_all() {
            return None;
        }
        if is_below(base, limit, left, all, prospect, &mut known, last) {
            return Some(leaf_of(left.resource, prospect.place));
        }
    }
    None
}

/// Whether the plain bound, which is so much above the base, is below the limit.
pub(crate) fn is_plain_below(base: Base, limit: i64, plain: u64) -> bool
    requires { plain ≤ 1200000000 }
    ensures { IsTrue result ↔ ((base.number +ℤ pos plain) <ℤ limit) }
{
    let least = base.number + plain as i64;
    least < limit
}

/// The leaf of the first bound below the limit, of all bounds in their order; `None` where none is.
/// The sum of the plain bound is at hand, and some tangents may be; those that are computed on the
/// way are kept.
#[inline(always)]
pub(crate) fn first_with(
    base: Base,
    limit: i64,
    rests: Rests,
    all: &Prospects,
    plain: u64,
    tangents: &mut Tangents,
) -> Option<Leaf>
    requires plain { plain ≡ by_course (λ p. 1000 * p.worth) all.now.list.now }
    requires tangents { AreTangents rests.budget rests.credits rests.courses all.now.list.now
        tangents.old }
    ensures first { IfSome result
        (IsFirstBelow limit
        (all_bounds base.number rests.budget rests.credits rests.courses all.now.list.now)) }
    ensures none { IfNone result
        (NoneBelow limit
        (all_bounds base.number rests.budget rests.credits rests.courses all.now.list.now)) }
    ensures tangents { AreTangents rests.budget rests.credits rests.courses all.now.list.now
        tangents.new }
{
    if is_plain_below(base, limit, plain) {
        return Some(Leaf::Plain);
    }
    let money = Left {
        resource: Resource::Money,
        rest: rests.budget,
    };
    let credits = Left {
        resource: Resource::Credits,
        rest: rests.credits,
    };
    let courses = Left {
        resource: Resource::Count,
        rest: rests.courses,
    };
    match first_of_resource(base, limit, money, all, &mut tangents.money) {
        Some(leaf) => Some(leaf),
        None => match first_of_resource(base, limit, credits, all, &mut tangents.credits) {
            Some(leaf) => Some(leaf),
            None => first_of_resource(base, limit, courses, all, &mut tangents.courses),
        },
    }
}

/// Of each course the greatest worth, a thousandfold, added up.
pub(crate) fn plain_sum(all: &Prospects) -> u64
    ensures value { result ≡ by_course (λ p. 1000 * p.worth) all.now.list.now }
    ensures high { result ≤ 1200000000 }
{
    let free = Rate {
        resource: Resource::Count,
        price: 0,
    };
    at_price(all, free, 0)
}

// Whether a prospect is at this place and has a bound.
fn has_bound_at(prospect: &Prospect, resource: Resource, place: u8) -> bool
    ensures { result
        ≡ (prospect.now.place == place
        && (nat_lt 0 prospect.now.worth && nat_lt 0 (takes_of resource prospect.now))) }
{
    let taken = takes(prospect, resource);
    prospect.place == place && prospect.worth > 0 && taken > 0
}

// The bound of the resource by a place that has one.
fn resource_bound(
    base: Base,
    rest: u32,
    resource: Resource,
    all: &Prospects,
    some: &[Prospect],
    place: u8,
) -> i64
    requires some_modest { All IsModest some.now }
    ensures { (bound : ℤ) → HasBound (resource_bounds base.number rest resource all.now.list.now some.now) (leaf_of resource place) bound
        → HasBound (resource_bounds base.number rest resource all.now.list.now some.now) (leaf_of resource place) result }
{
    match some {
        [] => base.number,
        [prospect, more @ ..] => {
            if has_bound_at(prospect, resource, place) {
                let taken = takes(prospect, resource);
                let price = 1000 * u64::from(prospect.worth) / taken;
                let rate = Rate { resource, price };
                return base.number + at_price(all, rate, rest) as i64;
            }
            resource_bound(base, rest, resource, all, more, place)
        }
    }
}

/// The bound of a leaf, where the open places have a bound with that leaf; else the number means
/// nothing.
pub(crate) fn bound_of(base: Base, rests: Rests, all: &Prospects, leaf: Leaf) -> i64
    ensures { (bound : ℤ) → HasBound (all_bounds base.number rests.budget rests.credits rests.courses all.now.list.now) leaf bound
        → HasBound (all_bounds base.number rests.budget rests.credits rests.courses all.now.list.now) leaf result }
{
    match leaf {
        Leaf::Plain => base.number + plain_sum(all) as i64,
        Leaf::Budget(place) => resource_bound(
            base,
            rests.budget,
            Resource::Money,
            all,
            all.list,
            place,
        ),
        Leaf::Credits(place) => resource_bound(
            base,
            rests.credits,
            Resource::Credits,
            all,
            all.list,
            place,
        ),
        Leaf::Number(place) => resource_bound(
            base,
            rests.courses,
            Resource::Count,
            all,
            all.list,
            place,
        ),
    }
}
