// The turns of the aftermarket, read off the front.
ghost use Rattle.std.specs.Prelude.{◌≡◌, ◌++◌, ◌∷◌, [], List, All, IfOk, IfErr, IfSome, IfNone, map};
ghost use Rattle.market_certificate.specs.Due.{AreDue, Due, Form, IsTurnLine, NoTurnNext, One, StartsTurn, Takes, Turns};
ghost use Rattle.market_certificate.specs.{Finding.Finds, Finding.OnDefect, Lines.Lacks};
ghost use Rattle.market_certificate.specs.{Publications.IsTurn, Texts.turn_line};
ghost use Rattle.market_certificate.specs.Views.{seen, turn_of};

use crate::reading::forms::{starts_turn, turn_in};
use crate::reading::lines::Lines;
use crate::tables::TableNames;
use crate::{ProvedTurn, TextRefusal};
use std::alloc::Global;

/// Reads lines as long as they begin as turns do: the turns, and the lines behind them. A line that
/// begins so and is no turn is refused.
pub(crate) fn read_turns<'t>(
    alloc: Global,
    lines: Lines<'t>,
    tables: &TableNames,
) -> Result<(Vec<ProvedTurn>, Lines<'t>), TextRefusal>
    ensures range { IfOk result
        (λ read. All (IsTurn (seen tables.now).students (seen tables.now).sections)
        (map turn_of read.0.items)) }
    ensures lines { IfOk result
        (λ read. Takes
        (map (turn_line (seen tables.now).students (seen tables.now).sections)
        (map turn_of read.0.items))
        lines.entry.number lines.entry.rest.now read.1.number read.1.rest.now) }
    ensures behind { IfOk result (λ read. NoTurnNext read.1.rest.now) }
    ensures defect { IfErr result
        (λ refusal. (form : Form) (more : List Due)
        → OnDefect refusal
        (Finds (AreDue (seen tables.now) (Turns ∷ One form ∷ more)) lines.entry.number
        lines.entry.rest.now)) }
{
    let mut turns = Vec::new(alloc);
    let mut left = lines;
    while let Some((line, behind)) = next_turn(left) {
        let Some((pass, student, bundle, tree)) = turn_in(tables, line) else {
            return Err(left.out_of_form());
        };
        let tree = tree.to_vec(alloc)?;
        turns.push(ProvedTurn {
            pass,
            student,
            bundle,
            tree,
        })?;
        left = behind;
    }
    Ok((turns, left))
}

// The next line, where it begins as a turn does, and what is left behind it.
fn next_turn<'t>(lines: Lines<'t>) -> Option<(&'t [u8], Lines<'t>)>
    ensures takes { IfSome result
        (λ read. Takes (read.0.now ∷ []) lines.entry.number lines.entry.rest.now read.1.number
        read.1.rest.now) }
    ensures whole { IfSome result (λ read. Lacks 10 read.0.now) }
    ensures begun { IfSome result (λ read. StartsTurn read.0.now) }
    ensures none { IfNone result (NoTurnNext lines.entry.rest.now) }
{
    match lines.next_line() {
        Ok((line, left)) => {
            if starts_turn(line) {
                Some((line, left))
            } else {
                None
            }
        }
        Err(_) => None,
    }
}
