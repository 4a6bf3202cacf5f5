//! What holds of made markets that are run: each call here does nothing, and its contract is a law.
ghost use Rattle.made_run.specs.Laws.{OneMadeError, OneMadeSummary, SummaryIsPriced, MadeTextsAreOfTheirGrammars, OrdersCloseAlike};

use aftermarket_stage::laws::one_aftermarket;
use published_market::laws::{one_least_error, one_publication, published_is_priced};
use tabu_search::laws::one_is_found;

/// A made market has one summary, in whatever order the commands of its sessions are taken.
pub fn one_made_summary()
    ensures { OneMadeSummary }
{
    one_aftermarket();
    one_is_found();
    one_publication();
    orders_close_alike();
}

/// Where it finds no prices, it has one least error.
pub fn one_made_error()
    ensures { OneMadeError }
{
    one_least_error();
    orders_close_alike();
}

/// It never has both.
pub fn summary_is_priced()
    ensures { SummaryIsPriced }
{
    published_is_priced();
    orders_close_alike();
}

/// The texts of a made market are read as its catalogue, its roll, its settings and at most 200,000
/// commands.
pub fn made_texts_are_of_their_grammars()
    ensures { MadeTextsAreOfTheirGrammars }
{}

/// Every order of such sessions closes with the same preferences.
pub fn orders_close_alike()
    ensures { OrdersCloseAlike }
{}
