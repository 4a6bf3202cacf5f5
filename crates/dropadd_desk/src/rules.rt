// What a desk keeps of a market.
ghost use Rattle.std.specs.Prelude.{◌≡◌, ◌<◌, ℕ, true, None, IfOk, IfSome, length, option_map};
ghost use Rattle.market_units.specs.Members.{has};
ghost use Rattle.bundle_rules.specs.Bundles.{sections_of};

use crate::reply::HallReply;
use bundle_rules::Bundle;
use course_catalog::Catalog;
use market_units::{MAX_COURSES, Name, NoMemory, SectionNo, StudentNo};
use std::alloc::Global;
use std::marker::Model;
use student_roll::Roll;

/// The catalogue and the roll that a desk is for, as copies of its own. No step changes them.
#[derive(Drop)]
pub struct MarketRules {
    catalog: Catalog,
    roll: Roll,
}

impl Model for MarketRules {
    ghost use Rattle.dropadd_desk.specs.Market.{IsMarket, Market};

    ghost Value = { Market };

    ghost view = { λ rules. record { catalog = rules.catalog; roll = rules.roll } };

    ghost invariant = { λ rules. IsMarket (record { catalog = rules.catalog; roll = rules.roll }) };
}

impl MarketRules {
    ghost use Rattle.dropadd_desk.specs.Market.{AreKnown, IsMarket, section_count, student_count, section_named, student_named, seats_in};
    ghost use Rattle.dropadd_desk.specs.Step.{obstacle};

    /// Copies of this catalogue and this roll. The only error is that memory was wanted and not
    /// given.
    pub(crate) fn copy(
        alloc: Global,
        catalog: &Catalog,
        roll: &Roll,
    ) -> Result<MarketRules, NoMemory>
        ensures { IfOk result (λ rules. rules ≡ record { catalog = catalog.now; roll = roll.now }) }
    {
        // Their contracts say what holds of every catalogue and every roll.
        let _sections = catalog.len();
        let _students = roll.len();
        Ok(MarketRules {
            catalog: catalog.copy(alloc)?,
            roll: roll.copy(alloc)?,
        })
    }

    /// The student of this name, or `None` exactly where no student has it.
    pub fn student(&self, name: &Name) -> Option<StudentNo>
        ensures ordinal { option_map (λ student. student.0) result
            ≡ student_named self.now name.now }
        ensures within { IfSome result (λ student. student.0 < student_count self.now) }
    {
        self.roll.find(name)
    }

    /// The section of this name, or `None` exactly where no section has it.
    pub fn section(&self, name: &Name) -> Option<SectionNo>
        ensures ordinal { option_map (λ section. section.0) result
            ≡ section_named self.now name.now }
        ensures within { IfSome result (λ section. section.0 < section_count self.now) }
    {
        self.catalog.find(name)
    }

    /// How many seats each section has, in file order.
    pub fn seats(&self) -> &[u16]
        ensures seats { result.now ≡ seats_in self.now }
        ensures market { IsMarket self.now }
    {
        self.catalog.all_seats()
    }

    /// Why the student, who holds this bundle, can not take the section too: the lowest section
    /// that clashes, else the cap on credits, else that on sections; `None` where nothing stands
    /// against it. Seats are not looked at.
    pub(crate) fn obstacle(
        &self,
        student: StudentNo,
        section: SectionNo,
        held: &Bundle,
    ) -> Option<HallReply>
        requires known { AreKnown self.now student.0 section.0 }
        requires within { (s : ℕ) → has (sections_of held.now) s ≡ true
            → s < section_count self.now }
        ensures obstacle { result ≡ obstacle self.now student.0 section.0 (sections_of held.now) }
        ensures room { result ≡ None → length (sections_of held.now) < MAX_COURSES }
    {
        let mut credits = self.catalog.credits(section);
        let sections = held.sections();
        'held: for other in sections {
            if self.catalog.clash(section, *other) {
                return Some(HallReply::Clash { with: *other });
            }
            credits += self.catalog.credits(*other);
        }
        if credits > self.roll.credits(student) {
            return Some(HallReply::Credits);
        }
        if sections.len() + 1 > usize::from(self.roll.courses(student)) {
            return Some(HallReply::Courses);
        }
        None
    }
}
