//! What holds of published markets: each call here does nothing, and its contract is a law. First
//! come the sentences on what a published text says of students and sections.
ghost use Rattle.published_market.specs.Laws.{AllocatedInPasses, AllocationWithinSeats, BestAtItsTurn, BestWithinBudget, BudgetsAreDrawn, OneLeastError, OnePublication, OnePublishedText, OrderMergesStreams, PublishedIsPriced, PublishedIsPublication, PublishedOrUnpriced, StageTwoWithinSeats, TurnsWithinSeats};

use aftermarket_stage::laws::{aftermarket_ends, one_aftermarket, stays_within_seats};
use market_menus::laws::each_has_a_menu;
use oversubscription_stage::laws::elimination_ends;
use proof_tree::laws::trees_prove_the_best;
use tabu_search::laws::{not_both_are_searched, one_is_found, search_ends};

/// The published order is that of a journal which merges all sessions' commands.
pub fn order_merges_streams()
    ensures { OrderMergesStreams }
{}

/// Each budget is the base, what was carried over, and the spread times the rank that the seed
/// draws.
pub fn budgets_are_drawn()
    ensures { BudgetsAreDrawn }
{}

/// Each student's bundle of the second stage is the best feasible one within its budget at the
/// published prices.
pub fn best_within_budget()
    ensures { BestWithinBudget }
{}

/// Each turn's bundle is the best one within the raised budget of the sections that the student
/// holds and of those that are free.
pub fn best_at_its_turn()
    ensures { BestAtItsTurn }
{}

/// No section is above its seats in the second stage.
pub fn stage_two_within_seats()
    ensures { StageTwoWithinSeats }
{}

/// No section is above its seats after any turn.
pub fn turns_within_seats()
    ensures { TurnsWithinSeats }
{
    stays_within_seats();
}

/// No section is above its seats at the end.
pub fn allocation_within_seats()
    ensures { AllocationWithinSeats }
{
    stays_within_seats();
}

/// The turns come in passes, in each of which each student has one turn, by budget before any
/// raise; in the last pass, and in no other, nobody changes anything. Each student's final bundle
/// is what its last turn left, and the best that it may have in the end, of what it holds and of
/// what is free. The used seats are those that the final bundles take.
pub fn allocated_in_passes()
    ensures { AllocatedInPasses }
{}

/// What is published for catalogue, roll and settings in their ranges and at most 64 sessions is a
/// publication in the ranges of the text, where its text is not of 2 ^ 64 bytes or more: a turn's
/// pass is to be below 2 ^ 64, and no pass has a greater number than the text has bytes.
pub fn published_is_publication()
    ensures { PublishedIsPublication }
{}

/// A market publishes one publication for an order.
pub fn one_publication()
    ensures { OnePublication }
{
    one_is_found();
    one_aftermarket();
}

/// A market publishes one text for an order, whoever finds it and with however many workers.
pub fn one_published_text()
    ensures { OnePublishedText }
{
    one_is_found();
    one_aftermarket();
}

/// Where no prices are found, there is only one least error.
pub fn one_least_error()
    ensures { OneLeastError }
{
    tabu_search::laws::one_least_error();
}

/// What is published has prices: no order has both a publication and a least error that is not
/// accepted.
pub fn published_is_priced()
    ensures { PublishedIsPriced }
{
    not_both_are_searched();
}

/// For catalogue, roll and settings in their ranges and at most 64 sessions, an order with a
/// journal that merges the streams has something published, or a least error that is not accepted.
pub fn published_or_unpriced()
    ensures { PublishedOrUnpriced }
{
    each_has_a_menu();
    search_ends();
    elimination_ends();
    aftermarket_ends();
    trees_prove_the_best();
}
