// What students take where a single section became cheaper than it was remembered.
ghost use Rattle.std.specs.Prelude.{◌≡◌};
ghost use Rattle.bundle_rules.specs.Bundles.{sections_of};
ghost use Rattle.demand_workers.specs.Answering.{answer_to};

use crate::cheaper::Cheaper;
use crate::question::Question;
use crate::taking::asked_again;
use bundle_rules::{Bundle, price_of};
use demand_oracle::{Workspace, demand_beside};

/// What a student takes at these prices, of all sections, asked. Where one section alone is cheaper
/// than remembered, and what is remembered of the student is still affordable, it is preferred to
/// all that lacks the section, so only bundles with it are searched.
pub(crate) fn asked_beside(workspace: &mut Workspace, question: &Question) -> Bundle
    ensures { sections_of result ≡ answer_to question.now }
{
    let cheaper = Cheaper::between(&question.remembered.prices, question.prices);
    let Some(section) = cheaper.alone() else {
        return asked_again(workspace, question);
    };
    let first = question.earlier();
    let budget = question.budget();
    if price_of(question.prices, first.sections()) > budget.0 {
        return asked_again(workspace, question);
    }
    demand_beside(
        workspace,
        question.menu(),
        question.prices,
        budget,
        &question.remembered.allowed,
        section,
        first,
    )
}
