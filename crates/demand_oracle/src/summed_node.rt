// A node of the search with its sums, so that nothing of it is computed anew.
ghost use Rattle.std.specs.Prelude.{◌≡◌, ◌≤◌, ◌-◌, [], ℕ, length};
ghost use Rattle.market_units.specs.declared.limits.TheConstants.{MAX_COURSES};
ghost use Rattle.bundle_rules.specs.Menus.{MenuData, wishes_of};
ghost use Rattle.bundle_rules.specs.Wishes.{utility};
ghost use Rattle.bundle_bounds.specs.Offers.{places_of};

use crate::tables::MOST_PLACES;
use bundle_bounds::Node;
use bundle_rules::{Bundle, Rows};
use market_units::{MAX_COURSES, Tokens};

const ROOM: usize = MAX_COURSES as usize;

/// A node of the search with what its sections are known by: their places, one behind another and
/// as bits of a word, and the sums of their prices, of their credits and of their utility.
#[derive(Clone, Copy, Debug)]
pub struct SummedNode {
    pub node: Node,
    pub(crate) places: [u8; ROOM],
    pub(crate) word: u64,
    pub(crate) paid: u32,
    pub(crate) credits: u32,
    pub(crate) utility: i32,
    ghost wide: { length places ≡ MAX_COURSES },
}

impl SummedNode {
    ghost use Rattle.demand_oracle.specs.SummedNodes.{chosen_of, IsSummed};

    /// The node of which nothing is decided.
    pub fn root() -> SummedNode
        ensures place { result.node.place ≡ 0 }
        ensures chosen { chosen_of result ≡ [] }
        ensures summed { (menu : MenuData) (price : ℕ → ℕ) → IsSummed menu price result }
    {
        SummedNode {
            node: Node {
                place: 0,
                chosen: Bundle::empty(),
            },
            places: [0; ROOM],
            word: 0,
            paid: 0,
            credits: 0,
            utility: 0,
        }
    }

    /// The utility of the chosen sections.
    pub fn utility(&self) -> i32
        ensures { (menu : MenuData) (price : ℕ → ℕ) → IsSummed menu price self.now
            → result ≡ utility (wishes_of menu) (chosen_of self.now) }
    {
        self.utility
    }

    /// The places of the chosen sections.
    pub(crate) fn places(&self) -> &[u8]
        ensures value { (menu : MenuData) (price : ℕ → ℕ) → IsSummed menu price self.now
            → result.now ≡ places_of menu (chosen_of self.now) }
        ensures few { length result.now ≤ MAX_COURSES }
    {
        &self.places[..self.node.chosen.sections().len()]
    }

    /// What the chosen sections leave of the budget.
    pub(crate) fn budget_left(&self, budget: Tokens) -> u32
        ensures { result ≡ budget.0 - self.now.paid }
    {
        budget.0.saturating_sub(self.paid)
    }

    /// What they leave of the credit cap.
    pub(crate) fn credits_left(&self, menu: &Rows) -> u32
        ensures value { result ≡ menu.now.credits - self.now.credits }
        ensures high { result ≤ 65535 }
    {
        u32::from(menu.credits()).saturating_sub(self.credits)
    }

    /// What they leave of the course cap.
    pub(crate) fn courses_left(&self, menu: &Rows) -> u8
        ensures value { result ≡ menu.now.courses - length (chosen_of self.now) }
        ensures high { result ≤ MAX_COURSES }
    {
        prove!(menu.len() <= MOST_PLACES);
        menu.courses()
            .saturating_sub(self.node.chosen.sections().len() as u8)
    }
}
