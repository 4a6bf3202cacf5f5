// Whom a walk to a least price settles.
ghost use Rattle.std.specs.Prelude.{◌≡◌, ◌<◌, IfSome, length, slice_set};
ghost use Rattle.std.specs.Arc.{arc_value};
ghost use Rattle.bundle_rules.specs.{Bundles.sections_of, Demand.price_in};
ghost use Rattle.demand_api.specs.Crowds.{demand_of};
ghost use Rattle.demand_workers.specs.Views.{crowd_of};

use crate::cheaper::Cheaper;
use crate::leaving::WalkEnd;
use crate::question::Question;
use crate::remembered::Remembered;
use bundle_rules::Bundle;
use market_units::{StudentNo, Tokens};

/// What the student takes at these prices: the remembered ones, with the section at the least price
/// of the walk. Who can still pay takes what is remembered, since no section became cheaper. Of
/// another it is what is noted; `None` where nothing serves.
pub(crate) fn settled(walk: &WalkEnd, prices: &[Tokens], student: StudentNo) -> Option<Bundle>
    requires raised { prices.now
        ≡ slice_set (arc_value walk.now.notes.now.remembered).prices.items walk.now.section.0
        walk.now.least }
    requires student { student.0
        < length (arc_value (arc_value walk.now.notes.now.remembered).crowd).menus.items }
    ensures { IfSome result
        (λ bundle. sections_of bundle
        ≡ demand_of (crowd_of (arc_value walk.now.notes.now.remembered)) (price_in prices.now) student.0) }
{
    let remembered: &Remembered = &walk.notes.remembered;
    let question = Question {
        remembered,
        prices,
        student,
    };
    if question.stays(Cheaper::nowhere(&remembered.prices, prices)) {
        return Some(*question.earlier());
    }
    walk.notes.told(&question)
}
