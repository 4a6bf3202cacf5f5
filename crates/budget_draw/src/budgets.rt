// Budgets, drawn and raised.
ghost use Rattle.std.specs.Prelude.{◌≡◌, ◌+◌, ◌-◌, ◌*◌, ◌<◌, ◌≤◌, All, IfOk};
ghost use Rattle.budget_draw.specs.Budgets.{amounts, budgets_of, raised_by};

use crate::ranks::rank_among;
use market_units::{
    MAX_BASE, MAX_BUDGET, MAX_RAISE, MAX_SPREAD, MAX_STUDENTS, NoMemory, StudentNo, Tokens,
};
use seed_words::words;
use std::alloc::Global;
use student_roll::Roll;

// The budget of a base, what is carried over, and a rank.
fn budget_at(base: u32, carry: u32, spread: u8, rank: usize) -> Tokens
    requires tokens { base + carry ≤ MAX_BASE }
    requires rank { rank < MAX_STUDENTS }
    ensures budget { result.0 ≡ base + carry + spread * rank }
    ensures range { spread ≤ MAX_SPREAD
        → result.0 ≤ MAX_BASE + MAX_SPREAD * (MAX_STUDENTS - 1) }
{
    Tokens(base + carry + u32::from(spread) * rank as u32)
}

/// The budget of each student in file order: the base, the tokens that are carried over, and the
/// spread times the rank that the seed draws.
pub fn draw(alloc: Global, roll: &Roll, seed: u64, spread: u8) -> Result<Vec<Tokens>, NoMemory>
    requires { spread ≤ MAX_SPREAD }
    ensures budgets { IfOk result
        (λ drawn. amounts drawn.items ≡ budgets_of roll.now.students seed spread) }
    ensures range { IfOk result
        (λ drawn. All (λ budget. budget.0 ≤ MAX_BASE + MAX_SPREAD * (MAX_STUDENTS - 1))
        drawn.items) }
{
    let students = roll.len();
    let words = words(alloc, seed, 0, usize::from(students))?;
    let mut drawn = Vec::with_capacity(alloc, usize::from(students))?;
    for student in 0..students {
        let rank = rank_among(&words, usize::from(student));
        let base = roll.base(StudentNo(student));
        let carry = roll.carry(StudentNo(student));
        drawn.push(budget_at(base, carry, spread, rank))?;
    }
    Ok(drawn)
}

/// The budget raised by `raise` percent, rounded down.
pub fn raised(budget: Tokens, raise: u8) -> Tokens
    requires budget { budget.0 ≤ MAX_BUDGET }
    requires raise { raise ≤ MAX_RAISE }
    ensures { result.0 ≡ raised_by raise budget.0 }
{
    Tokens(budget.0 + budget.0 * u32::from(raise) / 100)
}
