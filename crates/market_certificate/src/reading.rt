// A text read as a publication.
ghost use Rattle.std.specs.Prelude.{◌≡◌, ◌<◌, ◌-◌, ◌^◌, ℕ, List, IfOk, IfErr, length, map};
ghost use Rattle.bundle_rules.specs.Bundles.{sections_of};
ghost use Rattle.market_certificate.specs.Due.{AreDue, AreOutcome, ArePrices, Due, outcome_due, prices_due};
ghost use Rattle.market_certificate.specs.Finding.{Finds, OnDefect};
ghost use Rattle.market_certificate.specs.{Publications.IsPublication, Tables.tables_of};
ghost use Rattle.market_certificate.specs.Texts.{ArePublished, IsPublished, text_of};
ghost use Rattle.market_certificate.specs.Views.{proved_of, publication_of, seen, turn_of};
ghost use Rattle.market_certificate.specs.declared.refusals.LineFault.{LineFault};

mod blocks;
mod cuts;
mod forms;
mod lines;
mod single;
mod turns;
mod values;

use crate::amounts::Amount;
use crate::tables::TableNames;
use crate::{LineFault, Proved, ProvedTurn, Publication, TextRefusal};
use blocks::{read_allocation, read_amounts, read_bundles, read_seats};
use bundle_rules::Bundle;
use course_catalog::Catalog;
use lines::Lines;
use market_units::Tokens;
use single::{read_end, read_error, read_head, read_order};
use std::alloc::Global;
use student_roll::Roll;
use turns::read_turns;

/// The publication of this catalogue and this roll whose text this is; else the text's first
/// defect. The text has fewer than 4,294,967,295 bytes, so that each line has a number. `NoMemory`
/// comes where memory is wanted, and has no other cause.
pub fn read_publication(
    alloc: Global,
    catalog: &Catalog,
    roll: &Roll,
    text: &[u8],
) -> Result<Publication, TextRefusal>
    requires { length text.now < 2 ^ 32 - 1 }
    ensures publication { IfOk result
        (λ publication. IsPublication (tables_of catalog.now roll.now)
        (publication_of publication)) }
    ensures text { IfOk result
        (λ publication. text.now
        ≡ text_of (tables_of catalog.now roll.now) (publication_of publication)) }
    ensures defect { IfErr result
        (λ refusal. OnDefect refusal
        (Finds (ArePublished (tables_of catalog.now roll.now)) 1 text.now)) }
    ensures refused { IfErr result
        (λ refusal. OnDefect refusal
        (λ _ _. ¬ IsPublished (tables_of catalog.now roll.now) text.now)) }
{
    let tables = TableNames::of(alloc, catalog, roll)?;
    let left = read_head(Lines::of(text), &tables)?;
    let (order, left) = read_order(alloc, left)?;
    let (prices, left) = read_prices(alloc, left, &tables)?;
    let outcome = read_outcome(alloc, left, &tables)?;
    Ok(Publication {
        order,
        budgets: prices.budgets,
        start: prices.start,
        error: prices.error,
        prices: prices.prices,
        bundles: outcome.bundles,
        turns: outcome.turns,
        allocation: outcome.allocation,
        used: outcome.used,
    })
}

// What stands behind the order: the budgets, the prices of both stages, and the error between them.
#[derive(Drop)]
struct Prices {
    budgets: Vec<Tokens>,
    start: Vec<Tokens>,
    error: u64,
    prices: Vec<Tokens>,
}

// What came of the prices.
#[derive(Drop)]
struct Outcome {
    bundles: Vec<Proved>,
    turns: Vec<ProvedTurn>,
    allocation: Vec<Bundle>,
    used: Vec<(u16, u16)>,
}

// The budgets, prices and error, and what is left behind their lines.
fn read_prices<'t>(
    alloc: Global,
    lines: Lines<'t>,
    tables: &TableNames,
) -> Result<(Prices, Lines<'t>), TextRefusal>
    ensures prices { IfOk result
        (λ read. ArePrices (seen tables.now) (map (λ tokens. tokens.0) read.0.budgets.items)
        (map (λ tokens. tokens.0) read.0.start.items) read.0.error
        (map (λ tokens. tokens.0) read.0.prices.items) lines.entry.number lines.entry.rest.now
        read.1.number read.1.rest.now) }
    ensures defect { IfErr result
        (λ refusal. (more : List Due)
        → OnDefect refusal
        (Finds (AreDue (seen tables.now) (prices_due (seen tables.now) more))
        lines.entry.number lines.entry.rest.now)) }
{
    let (budgets, left) = read_amounts(alloc, lines, Amount::Budget, &tables.students)?;
    let (start, left) = read_amounts(alloc, left, Amount::Start, &tables.sections)?;
    let (error, left) = read_error(left)?;
    let (prices, left) = read_amounts(alloc, left, Amount::Price, &tables.sections)?;
    let prices = Prices {
        budgets,
        start,
        error,
        prices,
    };
    Ok((prices, left))
}

// What the lines behind the prices tell, to the last byte of the text.
fn read_outcome(alloc: Global, lines: Lines, tables: &TableNames) -> Result<Outcome, TextRefusal>
    ensures outcome { IfOk result
        (λ outcome. AreOutcome (seen tables.now) (map proved_of outcome.bundles.items)
        (map turn_of outcome.turns.items) (map sections_of outcome.allocation.items)
        outcome.used.items lines.entry.rest.now) }
    ensures defect { IfErr result
        (λ refusal. OnDefect refusal
        (Finds (AreDue (seen tables.now) (outcome_due (seen tables.now))) lines.entry.number
        lines.entry.rest.now)) }
{
    let (bundles, left) = read_bundles(alloc, lines, tables)?;
    let (turns, left) = read_turns(alloc, left, tables)?;
    let (allocation, left) = read_allocation(alloc, left, tables)?;
    let (used, left) = read_seats(alloc, left, &tables.sections)?;
    let left = read_end(left)?;
    if !left.rest.is_empty() {
        return Err(TextRefusal::Defect {
            line: left.number,
            kind: LineFault::Rest,
        });
    }
    Ok(Outcome {
        bundles,
        turns,
        allocation,
        used,
    })
}
