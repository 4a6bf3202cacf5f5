// The students of a market, with their menus and budgets.
ghost use Rattle.std.specs.Prelude.{◌≡◌, ◌↔◌, ◌<◌, ◌≤◌, IsTrue, IsSome, IfSome, IfOk, All, length};
ghost use Rattle.demand_api.specs.{Asking.ArePricesFor, Choosing.AreChosen};
ghost use Rattle.demand_api.specs.Crowds.{IsCrowd, IsWithin, top};
ghost use Rattle.demand_api.specs.Parts.{greatest, of_parts};

use bundle_rules::{Menu, Rated};
use market_units::{MAX_BUDGET, MAX_SECTIONS, MAX_STUDENTS, NoMemory, StudentNo, Tokens};
use std::alloc::Global;

/// A menu and a budget for each of at most 2,000 students, and the number of sections, at most 400,
/// among which are those of the menus.
#[derive(Drop)]
pub struct Crowd {
    /// What each student may choose from, in file order.
    pub menus: Vec<Menu>,
    /// The budget of each student, in the same order: at most 1,000,000.
    pub budgets: Vec<Tokens>,
    /// The number of sections.
    pub sections: u16,
    pub ghost same: { length budgets.items ≡ length menus.items },
    pub ghost whole: { IsCrowd (of_parts menus.items budgets.items sections) },
}

impl Crowd {
    ghost use Rattle.demand_api.specs.Views.{data_of};

    /// The crowd of these menus and budgets and so many sections. `None` exactly where there are
    /// not as many budgets as menus, or more than 2,000 of them, a budget above 1,000,000, more
    /// than 400 sections, or a menu with a section that is none of these; the parts are dropped
    /// then.
    pub fn of(menus: Vec<Menu>, budgets: Vec<Tokens>, sections: u16) -> Option<Crowd>
        ensures some { IsSome result ↔ ((length budgets.items ≡ length menus.items)
            × IsCrowd (of_parts menus.items budgets.items sections)) }
        ensures menus { IfSome result (λ crowd. crowd.menus ≡ menus) }
        ensures budgets { IfSome result (λ crowd. crowd.budgets ≡ budgets) }
        ensures sections { IfSome result (λ crowd. crowd.sections ≡ sections) }
    {
        if !are_parts(&menus, &budgets, sections) {
            return None;
        }
        Some(Crowd {
            menus,
            budgets,
            sections,
        })
    }

    /// Whether there is one price for each section, each at most the top: what can be asked of the
    /// crowd.
    pub fn has_prices(&self, prices: &[Tokens]) -> bool
        ensures { IsTrue result ↔ ArePricesFor (data_of self.now) prices.now }
    {
        if prices.len() != usize::from(self.sections) {
            return false;
        }
        all_at_most(prices, self.top().0)
    }

    /// The top price: one more than the greatest budget, and 1 without students.
    pub fn top(&self) -> Tokens
        ensures { result.0 ≡ top (data_of self.now) }
    {
        Tokens(greatest_budget(&self.budgets) + 1)
    }

    /// The crowd of at most 2,000 listed students, in this order. A student that is listed twice is
    /// there twice. The one error is the want of memory.
    pub fn choose(&self, alloc: Global, students: &[StudentNo]) -> Result<Crowd, NoMemory>
        requires few { length students.now ≤ MAX_STUDENTS }
        requires range { All (λ student. student.0 < length self.now.menus.items) students.now }
        ensures menus { IfOk result
            (λ crowd. AreChosen self.now.menus.items students.now crowd.menus.items) }
        ensures budgets { IfOk result
            (λ crowd. AreChosen self.now.budgets.items students.now crowd.budgets.items) }
        ensures sections { IfOk result (λ crowd. crowd.sections ≡ self.now.sections) }
    {
        let mut menus = Vec::new(alloc);
        let mut budgets = Vec::new(alloc);
        for student in students {
            let place = usize::from(student.0);
            let menu = self.menus[place].copy(alloc)?;
            menus.push(menu)?;
            let budget = self.budgets[place];
            budgets.push(budget)?;
        }
        Ok(Crowd {
            menus,
            budgets,
            sections: self.sections,
        })
    }
}

// Whether these are parts of a crowd.
fn are_parts(menus: &[Menu], budgets: &[Tokens], sections: u16) -> bool
    ensures { IsTrue result
        ↔ ((length budgets.now ≡ length menus.now)
        × IsCrowd (of_parts menus.now budgets.now sections)) }
{
    if budgets.len() != menus.len() {
        return false;
    }
    if menus.len() > usize::from(MAX_STUDENTS) {
        return false;
    }
    if sections > MAX_SECTIONS {
        return false;
    }
    if !all_at_most(budgets, MAX_BUDGET) {
        return false;
    }
    all_within(menus, sections)
}

// The greatest budget, 0 where there is none.
fn greatest_budget(budgets: &[Tokens]) -> u32
    ensures { result ≡ greatest budgets.now }
{
    match budgets {
        [] => 0,
        [budget, more @ ..] => budget.0.max(greatest_budget(more)),
    }
}

fn all_at_most(amounts: &[Tokens], most: u32) -> bool
    ensures { IsTrue result ↔ All (λ amount. amount.0 ≤ most) amounts.now }
{
    amounts.iter().all(|amount| amount.0 <= most)
}

fn all_within(menus: &[Menu], sections: u16) -> bool
    ensures { IsTrue result ↔ All (IsWithin sections) menus.now }
{
    match menus {
        [] => true,
        [menu, more @ ..] => is_within(menu.places(), sections) && all_within(more, sections),
    }
}

fn is_within(places: &[Rated], sections: u16) -> bool
    ensures { IsTrue result ↔ All (λ rated. rated.section.0 < sections) places.now }
{
    places.iter().all(|rated| rated.section.0 < sections)
}
