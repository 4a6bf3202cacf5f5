//! What there is one of: each call here does nothing, and its contract is a law.
ghost use Rattle.published_parts.specs.Laws.{OneCrowd, OneJournal, OneProvedBest};

/// An order of sessions has one journal.
pub fn one_journal()
    ensures { OneJournal }
{}

/// A market has one crowd after an order.
pub fn one_crowd()
    ensures { OneCrowd }
{}

/// An offer has one best bundle, and that has one tree.
pub fn one_proved_best()
    ensures { OneProvedBest }
{}
