// The printed bundles of the second stage, and what is looked for in any bundle.
ghost use Rattle.std.specs.Prelude.{◌≡◌, ◌↔◌, ◌<◌, ◌≤◌, ◌*◌, ℕ, IsTrue, IfErr, OnOk, All, length, nat_lt, true};
ghost use Rattle.std.specs.FinSet as set;
ghost use Rattle.market_units.specs.{Members.has, Totals.total};
ghost use Rattle.bundle_rules.specs.{Bundles.sections_of, Demand.IsPriced, Demand.price_in};
ghost use Rattle.bundle_rules.specs.Ordinals.{ordinals};
ghost use Rattle.bundle_bounds.specs.Offers.{offer_of};
ghost use Rattle.certificate_checker.specs.Findings.{HoldsToBudgets, HoldsToBundles, IsAnswered, IsBundleFinding};
ghost use Rattle.certificate_checker.specs.Students.{IsAffordable, IsOffered, IsProvedBundle};
ghost use Rattle.certificate_checker.specs.Views.{printed_in, terms_seen};

use crate::Finding;
use crate::printed::Printed;
use bundle_rules::{Bundle, all_allowed, feasible, price_of};
use market_units::{MAX_SECTIONS, SectionNo, SectionSet, StudentNo, Tokens};
use proof_tree::check_tree;

/// Whether each student's bundle of the second stage is affordable and feasible, and has its tree.
/// Else a finding on the first student of whom it is not so, with what is wrong.
pub(crate) fn check_bundles(printed: &Printed) -> Result<(), Finding>
    requires before { HoldsToBudgets (terms_seen printed.now) (printed_in printed.now) }
    ensures { IsAnswered HoldsToBundles (terms_seen printed.now) (printed_in printed.now)
        result }
{
    let terms = printed.terms;
    let publication = printed.publication;
    let all = SectionSet::full(terms.crowd.sections);
    for student in 0..publication.bundles.len() {
        check_bundle(printed, &all, student)?;
    }
    Ok(())
}

// Whether this student's bundle of the second stage is affordable and feasible, and has its tree.
fn check_bundle(printed: &Printed, all: &SectionSet, student: usize) -> Result<(), Finding>
    requires all { (s : ℕ)
        → set.contains all.now s ≡ nat_lt s printed.now.terms.now.crowd.sections }
    requires student { student < length printed.now.terms.now.crowd.menus.items }
    ensures ok { OnOk result
        (IsProvedBundle (terms_seen printed.now).crowd (printed_in printed.now) student) }
    ensures wrong { IfErr result
        (IsBundleFinding (terms_seen printed.now).crowd (printed_in printed.now) student) }
{
    let terms = printed.terms;
    let publication = printed.publication;
    let menu = &terms.crowd.menus[student];
    let budget = terms.crowd.budgets[student];
    let prices = publication.prices.as_slice();
    let proved = &publication.bundles[student];
    let number = StudentNo(student as u16);
    if !is_affordable(prices, budget, &proved.bundle) {
        return Err(Finding::Unaffordable { student: number });
    }
    if !feasible(menu, &proved.bundle) {
        return Err(Finding::Infeasible { student: number });
    }
    match check_tree(menu, prices, budget, all, &proved.bundle, &proved.tree) {
        Ok(()) => Ok(()),
        Err(defect) => Err(Finding::Tree {
            student: number,
            defect,
        }),
    }
}

/// Whether the prices of the bundle's sections sum to at most the budget, all in tokens.
pub(crate) fn is_affordable(prices: &[Tokens], budget: Tokens, bundle: &Bundle) -> bool
    requires { All (λ section. IsPriced prices.now section) (sections_of bundle.now) }
    ensures { IsTrue result ↔ (total (price_in prices.now) (sections_of bundle.now) ≤ budget.0) }
{
    price_of(prices, bundle.sections()) <= budget.0
}

/// Whether each section of the bundle is one of the allowed ones.
pub(crate) fn is_offered(allowed: &SectionSet, bundle: &Bundle) -> bool
    requires { All (λ section. section < MAX_SECTIONS) (sections_of bundle.now) }
    ensures { IsTrue result
        ↔ ((s : ℕ) → has (sections_of bundle.now) s ≡ true → set.contains allowed.now s ≡ true) }
{
    all_allowed(allowed, bundle.sections())
}
