// What open places make without the first of them.
ghost use Rattle.std.specs.Prelude.{◌≡◌, ◌≤◌, ◌*◌, ◌+◌, ◌-◌, ◌∷◌, ℕ, false, IfSome, length, drop};
ghost use Rattle.bundle_bounds.specs.Bounds.{over_price};
ghost use Rattle.bundle_bounds.specs.Courses.{HasAllOfCourse, has_course, greatest, by_course};
ghost use Rattle.bundle_bounds.specs.{Tangents.IsTangent, Tangents.AreTangents};

use crate::prospects::{Prospect, Prospects, Rate, Resource, peak_among, peak_of};
use crate::tangents::{Tangent, Tangents};

// The first of some open places, those behind it, and so many of these from the front that all of
// the first one's course are among them.
#[derive(Clone, Copy)]
struct Front<'p> {
    one: &'p Prospect,
    more: &'p [Prospect],
    firsts: &'p [Prospect],
    ghost has_all: { HasAllOfCourse firsts.now more.now one.now.course },
}

// How many of these there are up to the last one of the course.
fn up_to_course(more: &[Prospect], course: u8) -> usize
    ensures within { result ≤ length more.now }
    ensures behind { has_course (drop result more.now) course ≡ false }
{
    for index in (0..more.len()).rev() {
        if more[index].course == course {
            return index + 1;
        }
    }
    0
}

/// The plain sum of the open places behind the first, from that of all, with the same rests; the
/// tangents become theirs. The plain sum has of each course 1000 times the greatest worth.
#[inline(always)]
pub(crate) fn leave(all: &Prospects, plain: u64, tangents: &mut Tangents) -> u64
    requires some { 1 ≤ length all.now.list.now }
    requires plain { plain ≡ by_course (λ p. 1000 * p.worth) all.now.list.now }
    requires tangents { (budget : ℕ)
        × ((credit_rest : ℕ)
        × ((course_rest : ℕ)
        × AreTangents budget credit_rest course_rest all.now.list.now tangents.old)) }
    ensures plain { result ≡ by_course (λ p. 1000 * p.worth) (drop 1 all.now.list.now) }
    ensures less { result ≤ plain }
    ensures tangents { (budget credit_rest course_rest : ℕ)
        → AreTangents budget credit_rest course_rest all.now.list.now tangents.old
        → AreTangents budget credit_rest course_rest (drop 1 all.now.list.now) tangents.new }
{
    match all.list {
        [] => plain,
        [one, more @ ..] => {
            let firsts = &more[..up_to_course(more, one.course)];
            let front = Front { one, more, firsts };
            later(&mut tangents.money, Resource::Money, &front);
            later(&mut tangents.credits, Resource::Credits, &front);
            later(&mut tangents.courses, Resource::Count, &front);
            plain_later(plain, &front)
        }
    }
}

// The plain sum without the first open place.
#[inline(always)]
fn plain_later(plain: u64, front: &Front) -> u64
    requires plain { plain
        ≡ by_course (λ p. 1000 * p.worth) (front.now.one.now ∷ front.now.more.now) }
    ensures value { result ≡ by_course (λ p. 1000 * p.worth) front.now.more.now }
    ensures less { result ≤ plain }
{
    let free = Rate {
        resource: Resource::Count,
        price: 0,
    };
    plain - added_twice(front, free).0
}

// The tangent of a resource becomes that without it.
#[inline(always)]
fn later(tangent: &mut Option<Tangent>, resource: Resource, front: &Front)
    requires tangent { (rest : ℕ)
        × IfSome tangent.old (IsTangent rest resource (front.now.one.now ∷ front.now.more.now)) }
    ensures { (rest : ℕ)
        → IfSome tangent.old (IsTangent rest resource (front.now.one.now ∷ front.now.more.now))
        → IfSome tangent.new (IsTangent rest resource front.now.more.now) }
{
    let Some(kept) = *tangent else {
        return;
    };
    let rate = Rate {
        resource,
        price: kept.price,
    };
    let (here, after) = added_twice(front, rate);
    *tangent = Some(Tangent {
        price: kept.price,
        sum: kept.sum - here,
        next: kept.next - after,
    });
}

// How much the first open place adds to the sum of each course's greatest `over_price`: what it has
// more than the greatest of its course behind it, or 0; and the same at the next price.
#[inline(always)]
fn added_twice(front: &Front, rate: Rate) -> (u64, u64)
    ensures here { result.0
        ≡ over_price rate.resource rate.price front.now.one.now
        - greatest (over_price rate.resource rate.price) front.now.one.now.course
        front.now.firsts.now }
    ensures after { result.1
        ≡ over_price rate.resource (rate.price + 1) front.now.one.now
        - greatest (over_price rate.resource (rate.price + 1)) front.now.one.now.course
        front.now.firsts.now }
{
    let own = peak_of(front.one, rate);
    let most = peak_among(front.firsts, rate, front.one.course);
    (
        own.here.saturating_sub(most.here),
        own.after.saturating_sub(most.after),
    )
}
