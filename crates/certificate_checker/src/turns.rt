// The printed turns of the aftermarket.
ghost use Rattle.std.specs.Prelude.{◌↔◌, ◌<◌, ◌^◌, ◌+◌, IsTrue, IfOk, IfErr, OnOk, length, map};
ghost use Rattle.market_certificate.specs.Views.{publication_of, turn_of};
ghost use Rattle.published_parts.specs.Holdings.{demanded, held_after};
ghost use Rattle.certificate_checker.specs.Findings.{HasTurnFault, HoldsToSeats, HoldsToTheEnd, IsFirstIn, IsTurnFinding, OnFound};
ghost use Rattle.certificate_checker.specs.Parts.{AreHeldOn, IsDueTurn, IsNextTurn, IsProgress};
ghost use Rattle.certificate_checker.specs.Turns.{IsRightTurn, held_before, turn_in};
ghost use Rattle.certificate_checker.specs.Views.{printed_in, terms_of, terms_seen};

use crate::bundles::{is_affordable, is_offered};
use crate::printed::Printed;
use crate::progress::Progress;
use crate::terms::Terms;
use crate::{CheckEnd, Finding, TurnFault};
use budget_draw::{after_order, raised};
use bundle_rules::feasible;
use held_seats::Floor;
use market_certificate::{ProvedTurn, Publication};
use market_units::StudentNo;
use proof_tree::check_tree;
use std::alloc::Global;

/// Whether each turn is right, and whether they end with a whole pass without a change. Else the
/// first finding, or want of memory. The floor has the bundles of the second stage before the call,
/// and after `Ok` those that are held behind the last turn.
pub(crate) fn check_turns(
    alloc: Global,
    printed: &Printed,
    floor: &mut Floor,
) -> Result<(), CheckEnd>
    requires before { HoldsToSeats (terms_seen printed.now) (printed_in printed.now) }
    requires floor { AreHeldOn printed.now.terms.now.seats.items (demanded (printed_in printed.now))
        floor.old }
    ensures ok { OnOk result (HoldsToTheEnd (terms_seen printed.now) (printed_in printed.now)) }
    ensures floor { OnOk result
        (AreHeldOn printed.now.terms.now.seats.items
        (held_after (demanded (printed_in printed.now))
        (printed_in printed.now).turns) floor.new) }
    ensures first { IfErr result
        (λ end. OnFound end (IsFirstIn (terms_seen printed.now) (printed_in printed.now))) }
{
    let terms = printed.terms;
    let publication = printed.publication;
    let order = after_order(alloc, &terms.crowd.budgets)?;
    let mut progress = Progress::start();
    'turns: for place in 0..publication.turns.len() {
        progress = take_turn(terms, publication, floor, &order, progress, place)?;
    }
    if order.is_empty() {
        return Ok(());
    }
    if progress.over {
        return Ok(());
    }
    Err(CheckEnd::Found(Finding::NotQuiet {
        turns: publication.turns.len() as u32,
    }))
}

// The turn at this place, where it is right: its student then holds its bundle, and the passes go
// on.
fn take_turn(
    terms: &Terms,
    publication: &Publication,
    floor: &mut Floor,
    order: &[StudentNo],
    progress: Progress,
    place: usize,
) -> Result<Progress, Finding>
    requires turn { IsNextTurn terms.now publication.now (map (λ student. student.0) order.now)
        progress place }
    requires floor { AreHeldOn terms.now.seats.items
        (held_before (publication_of publication.now) place) floor.old }
    ensures right { IfOk result
        (λ next. IsRightTurn (terms_of terms.now) (publication_of publication.now) place) }
    ensures progress { IfOk result
        (λ next. IsProgress (length terms.now.crowd.menus.items) (publication_of publication.now)
        (place + 1) next) }
    ensures floor { IfOk result
        (λ next. AreHeldOn terms.now.seats.items
        (held_before (publication_of publication.now) (place + 1)) floor.new) }
    ensures wrong { IfErr result
        (IsTurnFinding (terms_of terms.now) (publication_of publication.now) place) }
{
    match check_turn(terms, publication, floor, order, progress, place) {
        Ok(()) => {}
        Err(fault) => {
            return Err(Finding::Turn {
                turn: place as u32 + 1,
                fault,
            });
        }
    }
    let turn = &publication.turns[place];
    let moved = floor.give(&terms.seats, usize::from(turn.student.0), turn.bundle);
    Ok(progress.after_turn(order.len(), moved))
}

// What is first wrong with the turn at this place, where so much is held before it and the passes
// have come so far.
fn check_turn(
    terms: &Terms,
    publication: &Publication,
    floor: &Floor,
    order: &[StudentNo],
    progress: Progress,
    place: usize,
) -> Result<(), TurnFault>
    requires turn { IsNextTurn terms.now publication.now (map (λ student. student.0) order.now)
        progress place }
    requires floor { AreHeldOn terms.now.seats.items
        (held_before (publication_of publication.now) place) floor.now }
    ensures due { OnOk result
        (IsDueTurn (map (λ student. student.0) order.now) progress
        (turn_in (publication_of publication.now) place)) }
    ensures right { OnOk result
        (IsRightTurn (terms_of terms.now) (publication_of publication.now) place) }
    ensures wrong { IfErr result
        (HasTurnFault (terms_of terms.now) (publication_of publication.now) place) }
{
    let turn = &publication.turns[place];
    if !is_due(order, progress, turn) {
        return Err(TurnFault::Order);
    }
    let student = usize::from(turn.student.0);
    let menu = &terms.crowd.menus[student];
    let budget = raised(terms.crowd.budgets[student], terms.raise);
    let prices = publication.prices.as_slice();
    if !is_affordable(prices, budget, &turn.bundle) {
        return Err(TurnFault::Unaffordable);
    }
    if !feasible(menu, &turn.bundle) {
        return Err(TurnFault::Infeasible);
    }
    let choices = floor.choices(student);
    if !is_offered(&choices, &turn.bundle) {
        return Err(TurnFault::Taken);
    }
    match check_tree(menu, prices, budget, &choices, &turn.bundle, &turn.tree) {
        Ok(()) => Ok(()),
        Err(defect) => Err(TurnFault::Tree(defect)),
    }
}

// Whether the turn has the pass and the student that are due.
fn is_due(order: &[StudentNo], progress: Progress, turn: &ProvedTurn) -> bool
    requires { progress.pass < 2 ^ 32 }
    ensures { IsTrue result
        ↔ IsDueTurn (map (λ student. student.0) order.now) progress (turn_of turn.now) }
{
    if progress.over || turn.pass != progress.pass + 1 {
        return false;
    }
    match order.get(progress.place) {
        Some(student) => *student == turn.student,
        None => false,
    }
}
