// What students take: asked, and read from what is remembered.
ghost use Rattle.std.specs.Prelude.{◌≡◌, ◌<◌, ◌≤◌, All, length, map};
ghost use Rattle.std.specs.Arc.{arc_value};
ghost use Rattle.bundle_rules.specs.{Bundles.sections_of, Demand.price_in};
ghost use Rattle.demand_api.specs.Crowds.{demand_of};
ghost use Rattle.demand_workers.specs.Answering.{answer_to, IsListed};
ghost use Rattle.demand_workers.specs.Views.{crowd_of, price_before};

use crate::question::Question;
use crate::remembered::Remembered;
use bundle_rules::Bundle;
use demand_oracle::{Best, Workspace, best_few, demand_from};
use market_units::{StudentNo, Tokens};

/// What a student takes at these prices, of all sections, asked. The search begins with what is
/// remembered of the student, which is often still nearly the best.
pub(crate) fn asked_again(workspace: &mut Workspace, question: &Question) -> Bundle
    ensures { sections_of result ≡ answer_to question.now }
{
    demand_from(
        workspace,
        question.menu(),
        question.prices,
        question.budget(),
        &question.remembered.allowed,
        question.earlier(),
    )
}

/// The best bundles of a student at these prices, of all sections, so many at most. The search
/// begins with what is remembered of the student.
pub(crate) fn listed_again(workspace: &mut Workspace, question: &Question, most: usize) -> Best
    requires { (1 ≤ most) × (most ≤ 8) }
    ensures { IsListed question.now result }
{
    best_few(
        workspace,
        question.menu(),
        question.prices,
        question.budget(),
        &question.remembered.allowed,
        Some(question.earlier()),
        most,
    )
}

/// Writes what each listed student takes at the remembered prices, in the order of the list.
pub(crate) fn read_listed(remembered: &Remembered, students: &[StudentNo], bundles: &mut [Bundle])
    requires students { All
        (λ student. student.0 < length (arc_value remembered.now.crowd).menus.items) students.now }
    requires same { length bundles.old ≡ length students.now }
    ensures { map sections_of bundles.new
        ≡ map
        (λ student. demand_of (crowd_of remembered.now) (price_before remembered.now) student.0)
        students.now }
{
    for place in 0..students.len() {
        bundles[place] = remembered.bundles[usize::from(students[place].0)];
    }
}
