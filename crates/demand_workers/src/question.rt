// What is asked of a student of whom something is remembered.
ghost use Rattle.std.specs.Prelude.{◌<◌, length};
ghost use Rattle.std.specs.Arc.{arc_value};
ghost use Rattle.demand_api.specs.Asking.{ArePricesFor};
ghost use Rattle.demand_workers.specs.Views.{crowd_of};

use crate::cheaper::{Cheaper, spares};
use crate::note::Note;
use crate::remembered::Remembered;
use bundle_rules::{Bundle, Menu, price_of};
use demand_oracle::Best;
use market_units::{MAX_RATINGS, StudentNo, Tokens};

/// A student of a remembered crowd, and prices at which it is asked.
#[derive(Clone, Copy)]
pub(crate) struct Question<'a> {
    pub remembered: &'a Remembered,
    pub prices: &'a [Tokens],
    pub student: StudentNo,
    pub ghost priced: { ArePricesFor (crowd_of remembered.now) prices.now },
    pub ghost listed: { student.0 < length (arc_value remembered.now.crowd).menus.items },
}

impl Question<'_> {
    ghost use Rattle.std.specs.Prelude.{◌≡◌, IfSome, IsTrue, slice_index_or};
    ghost use Rattle.bundle_rules.specs.Bundles.{sections_of};
    ghost use Rattle.demand_workers.specs.Answering.{answer_to, taken_before, IsListed};
    ghost use Rattle.demand_workers.specs.Remembered.{FellWithin};
    ghost use Rattle.demand_workers.specs.Notes.{IsNoted};

    /// The student's menu.
    pub(crate) fn menu(&self) -> &Menu
        ensures { (d : _) → result.now
            ≡ slice_index_or (arc_value self.now.remembered.now.crowd).menus.items
            self.now.student.0 d }
    {
        &self.remembered.crowd.menus[usize::from(self.student.0)]
    }

    /// The student's budget.
    pub(crate) fn budget(&self) -> Tokens
        ensures { (d : _) → result
            ≡ slice_index_or (arc_value self.now.remembered.now.crowd).budgets.items
            self.now.student.0 d }
    {
        self.remembered.crowd.budgets[usize::from(self.student.0)]
    }

    /// What the student takes at the remembered prices.
    pub(crate) fn earlier(&self) -> &Bundle
        ensures { sections_of result.now ≡ taken_before self.now }
    {
        &self.remembered.bundles[usize::from(self.student.0)]
    }

    /// A note that these are the student's best bundles at these prices.
    pub(crate) fn note(&self, best: Best) -> Note
        requires { IsListed self.now best }
        ensures { IsNoted (crowd_of self.now.remembered.now) result }
    {
        let places = self.menu().places();
        let mut prices = [Tokens(0); MAX_RATINGS];
        for place in 0..places.len() {
            prices[place] = self.prices[usize::from(places[place].section.0)];
        }
        Note {
            student: self.student,
            best,
            prices,
        }
    }

    /// What the student takes, of its best bundles at these prices.
    pub(crate) fn first_of(&self, best: &Best) -> Bundle
        requires { IsListed self.now best.now }
        ensures { sections_of result ≡ answer_to self.now }
    {
        best.first()
    }

    /// What is remembered of the student, where the student surely takes the same at these prices;
    /// else `None`, and the student has to be asked.
    pub(crate) fn kept(&self) -> Option<Bundle>
        ensures { IfSome result (λ bundle. sections_of bundle ≡ answer_to self.now) }
    {
        let cheaper = Cheaper::anywhere(&self.remembered.prices, self.prices);
        if !self.stays(cheaper) {
            return None;
        }
        Some(*self.earlier())
    }

    /// Whether the student surely takes what is remembered of it at these prices too: the bundle is
    /// still affordable, and no section of the menu became cheaper.
    pub(crate) fn stays(&self, cheaper: Cheaper) -> bool
        requires { FellWithin cheaper.first cheaper.past self.now.remembered.now.prices.items
            self.now.prices.now }
        ensures { IsTrue result → taken_before self.now ≡ answer_to self.now }
    {
        if price_of(self.prices, self.earlier().sections()) > self.budget().0 {
            return false;
        }
        spares(
            cheaper,
            self.menu().places(),
            &self.remembered.prices,
            self.prices,
        )
    }
}
