// Bundles that are exchanged for others, with a count for each section.
ghost use Rattle.std.specs.Prelude.{◌≡◌, ◌<◌, All, length, map};
ghost use Rattle.bundle_rules.specs.Bundles.{sections_of};
ghost use Rattle.demand_api.specs.Counting.{AreWithin, IsTally};
ghost use Rattle.own_price.specs.Exchanges.{exchanged};

use bundle_rules::Bundle;
use demand_api::exchange_bundle;
use market_units::StudentNo;

/// Gives each listed student the bundle at the same place of the other list, and keeps the counts
/// of the sections in step. A student who is listed twice has the later bundle.
pub(crate) fn exchange_all(
    bundles: &mut [Bundle],
    counts: &mut [u32],
    students: &[StudentNo],
    others: &[Bundle],
)
    requires tally { IsTally (length counts.old) bundles.old counts.old }
    requires same { length others.now ≡ length students.now }
    requires range { All (λ student. student.0 < length bundles.old) students.now }
    requires within { AreWithin (length counts.old) (map sections_of others.now) }
    ensures tally { IsTally (length counts.old) bundles.new counts.new }
    ensures bundles { bundles.new ≡ exchanged bundles.old students.now others.now }
{
    for place in 0..students.len() {
        let student = usize::from(students[place].0);
        exchange_bundle(counts, bundles, student, others[place]);
    }
}
