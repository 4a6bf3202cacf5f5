// The most that can still be reached from a node, looked up.
ghost use Rattle.std.specs.Prelude.{◌≡◌, ◌↔◌, ◌<◌, ◌≤◌, ◌+◌, ◌*◌, ◌-◌, ◌^◌, ◌-ℤ◌, ◌*ℤ◌, ◌≤ℤ◌, ◌<ℤ◌, pos, neg_ℤ, ℕ, Bool, List, IsTrue, length};
ghost use Rattle.std.specs.Ordering.{nat_cmp};
ghost use Rattle.std.specs.FinSet as set;
ghost use Rattle.market_units.specs.Totals.{total};
ghost use Rattle.market_units.specs.declared.limits.TheConstants.{MAX_COURSES, MAX_RATINGS};
ghost use Rattle.market_units.specs.declared.units.Tokens.{Tokens};
ghost use Rattle.bundle_rules.specs.{Demand.price_in, Menus.IsMenu};
ghost use Rattle.bundle_bounds.specs.Laws.{IsTakable, IsNode};
ghost use Rattle.bundle_bounds.specs.{Offers.OfferData, Offers.offer_of, Offers.places_of, Prunings.MayPrune};
ghost use Rattle.bundle_bounds.specs.Views.{data_of};
ghost use Rattle.demand_oracle.specs.{Champions.IsChampion, Covers.IsAdded};
ghost use Rattle.demand_oracle.specs.SummedNodes.{chosen_of, IsSummed};

use crate::draft::Draft;
use crate::multipliers::{Multipliers, multipliers_at};
use crate::places::{fitting, hopes_of};
use crate::step::Step;
use crate::summed_node::SummedNode;
use crate::tables::{
    COUNTS, MILLION, PLACES, ROWS, THOUSAND, Table, UNITS, lightest, put_hopes, put_most,
};
use crate::unit::Unit;
use bundle_bounds::Offer;
use bundle_rules::{Bundle, Rows};
use market_units::Tokens;

// More than can be added at any node, in millionths of a point of utility.
const ENOUGH: u64 = 1 << 62;

/// What the places from each one on can still add at one demand.
#[derive(Drop)]
pub struct Reach {
    lightest: u16,
    pub(crate) hopes: [[u16; PLACES]; ROWS],
    multipliers: Multipliers,
    // What can be added where money is counted in units, and not at a multiplier.
    credits: Multipliers,
    unit: Unit,
    most: Table,
}

/// What is looked up at each place where the same sections are chosen: how many more fit, how many
/// units are left of the budget, and what is paid at the multipliers for what is left.
#[derive(Clone, Copy)]
pub struct Column {
    count: usize,
    units: usize,
    paid: u64,
    ghost few: { count ≤ MAX_COURSES },
    ghost low: { units < 64 },
    ghost paid_low: { paid ≤ 2 ^ 62 },
}

impl Reach {
    ghost use Rattle.demand_oracle.specs.Columns.{IsColumn, IsColumnAt, IsColumnFor};
    ghost use Rattle.demand_oracle.specs.Reaches.{IsReach, number_at};

    /// A table that was measured for no demand yet: `prunes` promises nothing before `measure`.
    pub fn empty() -> Reach {
        let nothing = Multipliers {
            money: 0,
            credits: 0,
        };
        Reach {
            lightest: 0,
            hopes: [[0; PLACES]; ROWS],
            multipliers: nothing,
            credits: nothing,
            unit: Unit { shift: 0 },
            most: [[0; UNITS]; ROWS * COUNTS],
        }
    }

    /// Measures what can be reached of an offer.
    pub fn measure(&mut self, offer: &Offer)
        ensures { IsReach (data_of offer.now) self.new }
    {
        self.lightest = lightest(offer);
        put_hopes(offer, &mut self.hopes);
        self.multipliers = multipliers_at(offer, &self.hopes, self.lightest);
        self.credits = Multipliers {
            money: 0,
            credits: self.multipliers.credits,
        };
        self.unit = Unit::for_budget(offer.budget);
        put_most(offer, self.credits, self.unit, &self.hopes, &mut self.most);
    }

    /// What is looked up in all places for the sections that a node has chosen. The table is one that
    /// was measured for the same menu and budget.
    #[inline(always)]
    pub fn column(&self, menu: &Rows, budget: Tokens, summed: &SummedNode) -> Column
        ensures { IsColumn menu.now budget.0 self.now summed.now result }
    {
        self.column_for(
            summed.courses_left(menu),
            summed.budget_left(budget),
            summed.credits_left(menu),
        )
    }

    /// What is looked up where so many courses, so much of the budget and so many credits are left.
    #[inline(always)]
    pub(crate) fn column_for(&self, courses: u8, budget: u32, credits: u32) -> Column
        requires courses { courses ≤ MAX_COURSES }
        requires credits { credits ≤ 65535 }
        ensures { IsColumnFor self.now courses budget credits result }
    {
        let count = usize::from(fitting(courses, credits, self.lightest));
        let units = self.unit.whole_in(budget);
        if count == 0 {
            return Column {
                count,
                units: 0,
                paid: 0,
            };
        }
        if units >= UNITS as u32 {
            return Column {
                count,
                units: 0,
                paid: ENOUGH,
            };
        }
        let paid = self.credits.money * u64::from(budget)
            + self.credits.credits * u64::from(credits);
        Column {
            count,
            units: units as usize,
            paid,
        }
    }

    /// The places of a node that begins well, as bits: chosen one after another, each the one that
    /// adds most for what it takes, of those that fit. A search that begins with that node as its
    /// champion prunes most nodes at once. The table is one that was measured for the same offer;
    /// with another the node may be worth little.
    pub fn drafted(&self, offer: &Offer) -> u64 {
        Draft::of(offer, self.multipliers).chosen
    }

    /// What the adjustments of the chosen places and of one more with the places from another one on
    /// can add.
    #[inline(always)]
    pub(crate) fn hoped_with(&self, step: &Step, next: u8) -> u32
        requires { next ≤ length step.now.offer.now.menu.now.places }
        ensures { result
            ≡ total (number_at self.now.hopes next)
            (places_of step.now.offer.now.menu.now (chosen_of step.now.summed.now))
            + number_at self.now.hopes next step.now.place }
    {
        let menu = step.offer.menu;
        prove!(next <= menu.len());
        let row = &self.hopes[usize::from(next)];
        hopes_of(row, step.summed.places()) + u32::from(row[usize::from(step.place)])
    }

    /// A million times the most that can be added to what is hoped for at the node where the places
    /// below this one are decided. The column is that of its sections.
    #[inline(always)]
    pub(crate) fn added(&self, column: &Column, place: u8) -> i64
        requires { place ≤ MAX_RATINGS }
        ensures value { (offer : OfferData) (chosen : List ℕ) → IsMenu offer.menu
            → place ≤ length offer.menu.places → IsReach offer self.now
            → IsColumnAt offer self.now chosen column.now → IsNode offer place chosen
            → IsAdded offer place chosen result }
        ensures low { pos 0 ≤ℤ result }
    {
        let most = self.most[usize::from(place) * COUNTS + column.count][column.units];
        (column.paid + THOUSAND * u64::from(most)) as i64
    }
}

/// The places of a menu whose sections a bundle has, as bits.
pub fn places_in(menu: &Rows, bundle: &Bundle) -> u64 {
    let mut word = 0;
    for place in 0..menu.len() {
        word |= u64::from(bundle.has(menu.rated(place).section)) << place;
    }
    word
}

/// A node that has of wanted places, which are bits of a word, what may be taken, place by place. A
/// search that begins with it as its champion is short where they are nearly the best.
pub fn begun_with(offer: &Offer, wanted: u64) -> SummedNode
    ensures { IsChampion (data_of offer.now) result }
{
    let mut summed = SummedNode::root();
    for place in 0..offer.menu.len() {
        let is_wanted = (wanted >> place) & 1 == 1;
        let step = Step {
            offer,
            summed: &summed,
            place,
        };
        summed = followed(&step, is_wanted);
    }
    summed
}

// The node with the section of an undecided place, where it is wanted and may be taken, and else the
// node itself.
#[inline(always)]
fn followed(step: &Step, is_wanted: bool) -> SummedNode
    requires { IsTakable (data_of step.now.offer.now) (chosen_of step.now.summed.now) }
    ensures champion { IsChampion (data_of step.now.offer.now) result }
    ensures place { result.node.place ≤ step.now.place + 1 }
{
    if !is_wanted {
        return *step.summed;
    }
    if !step.may_take() {
        return *step.summed;
    }
    step.with_place()
}

/// What a champion's worth has more than a utility and what is hoped for.
pub(crate) fn lacking(worth: i32, utility: i32, hoped: u32) -> i64
    ensures value { result ≡ (worth -ℤ utility) -ℤ pos hoped }
    ensures high { result ≤ℤ pos (2 ^ 32) }
    ensures low { neg_ℤ (pos (2 ^ 34)) ≤ℤ result }
{
    i64::from(worth) - i64::from(utility) - i64::from(hoped)
}

/// Whether so many millionths are less than so many points.
pub(crate) fn is_below(millionths: i64, points: i64) -> bool
    requires high { points ≤ℤ pos (2 ^ 33) }
    requires low { neg_ℤ (pos (2 ^ 34)) ≤ℤ points }
    ensures { IsTrue result ↔ (millionths <ℤ (pos 1000000 *ℤ points)) }
{
    millionths < MILLION as i64 * points
}

#[cfg(test)]
mod tests;
