// Holders of a section, by the prices at which they leave it.
ghost use Rattle.std.specs.Prelude.{◌≡◌, ◌<◌, ◌≤◌, ◌-◌, IfOk, length, true};
ghost use Rattle.std.specs.Arc.{arc_value};
ghost use Rattle.bundle_rules.specs.{Bundles.sections_of, Demand.price_in};
ghost use Rattle.market_units.specs.Members.{has};
ghost use Rattle.demand_api.specs.Crowds.{top};
ghost use Rattle.demand_workers.specs.Answering.{answer_to};
ghost use Rattle.demand_workers.specs.Leaving.{leaves, takes, AreLeft, AreListed};
ghost use Rattle.demand_workers.specs.Views.{crowd_of, price_before};

use crate::notes::Notes;
use crate::question::Question;
use crate::remembered::Remembered;
use bundle_rules::{Bundle, price_of};
use market_units::{MAX_PRICE, NoMemory, SectionNo, StudentNo, Tokens};
use std::alloc::Global;

// Where a walk ended, which went by these notes: a price of its section from the remembered one up,
// at most the top, the others as remembered.
#[derive(Clone, Copy)]
pub(crate) struct WalkEnd<'a> {
    pub notes: &'a Notes,
    pub section: SectionNo,
    pub least: Tokens,
    pub ghost within: { section.0 < (arc_value (arc_value notes.now.remembered).crowd).sections },
    pub ghost low: { price_before (arc_value notes.now.remembered) section.0 ≤ least.0 },
    pub ghost high: { least.0 ≤ top (crowd_of (arc_value notes.now.remembered)) },
}

// A holder of a section: `MAX_PRICE` less the price at which it leaves, and its number. The
// greatest pair leaves first.
pub(crate) type Holder = (u32, u16);

/// The holders of a section at the remembered prices: all who hold it. The only error is that memory
/// was not given.
pub(crate) fn holders_of(
    alloc: Global,
    remembered: &Remembered,
    section: SectionNo,
) -> Result<Vec<Holder>, NoMemory>
    requires { section.0 < (arc_value remembered.now.crowd).sections }
    ensures { IfOk result
        (λ holders. AreLeft (crowd_of remembered.now) (price_before remembered.now) section.0
        (price_before remembered.now section.0) holders.items) }
{
    let mut holders = Vec::new(alloc);
    for place in 0..remembered.bundles.len() {
        let bundle = &remembered.bundles[place];
        if !bundle.has(section) {
            continue;
        }
        let question = Question {
            remembered,
            prices: &remembered.prices,
            student: StudentNo(place as u16),
        };
        let holder = holder_of(&question, section, bundle);
        holders.push(holder)?;
    }
    Ok(holders)
}

/// The same of all sections, found in one pass over the students: a list for each, by its ordinal.
/// The only error is that memory was not given.
pub(crate) fn holders_by_section(
    alloc: Global,
    remembered: &Remembered,
) -> Result<Vec<Vec<Holder>>, NoMemory>
    ensures len { IfOk result
        (λ lists. length lists.items ≡ (arc_value remembered.now.crowd).sections) }
    ensures left { IfOk result
        (λ lists. AreListed (crowd_of remembered.now) (price_before remembered.now) lists.items) }
{
    let mut lists = Vec::new(alloc);
    'sections: for _ in 0..remembered.prices.len() {
        lists.push(Vec::new(alloc))?;
    }
    for place in 0..remembered.bundles.len() {
        let bundle = &remembered.bundles[place];
        let question = Question {
            remembered,
            prices: &remembered.prices,
            student: StudentNo(place as u16),
        };
        let sections = bundle.sections();
        for index in 0..sections.len() {
            let section = sections[index];
            let holder = holder_of(&question, section, bundle);
            let list = &mut lists[usize::from(section.0)];
            list.push(holder)?;
        }
    }
    Ok(lists)
}

/// The holder with its bundle at these prices: it keeps the bundle as long as the section costs no
/// more than what is left of the budget besides.
pub(crate) fn holder_of(question: &Question, section: SectionNo, bundle: &Bundle) -> Holder
    requires section { section.0 < (arc_value question.now.remembered.now.crowd).sections }
    requires taken { sections_of bundle.now ≡ answer_to question.now }
    requires holds { has (sections_of bundle.now) section.0 ≡ true }
    ensures student { result.1 ≡ question.now.student.0 }
    ensures room { result.0 ≤ MAX_PRICE }
    ensures later { price_in question.now.prices.now section.0 < leaves result }
    ensures capped { leaves result ≤ top (crowd_of question.now.remembered.now) }
    ensures still { takes (crowd_of question.now.remembered.now) (price_in question.now.prices.now)
        section.0 (leaves result - 1) question.now.student.0
        ≡ true }
{
    let price = question.prices[usize::from(section.0)].0;
    let cost = price_of(question.prices, bundle.sections());
    let left = question.budget().0 - cost;
    (MAX_PRICE - (price + left + 1), question.student.0)
}
