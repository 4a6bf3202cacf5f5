// What holds of the definitions.
ghost use Rattle.timetable_rules.specs.Laws.{ClashTestIsRelation, ClashesAreMutual, OneReading, OverlapTestIsRelation, PartsSpelledIsSpelling, SharedPartTestIsRelation, SpelledIsSpelling};

/// A text spells one list of meetings at most.
pub fn one_reading()
    ensures { OneReading }
{}

/// What a text spells, as a function, is what the relation says.
pub fn spelled_is_spelling()
    ensures { SpelledIsSpelling }
{}

/// What a text spells of parts of the term, as a function, is what the relation says.
pub fn parts_spelled_is_spelling()
    ensures { PartsSpelledIsSpelling }
{}

/// The test of a shared part of the term, with which definitions compute, is the relation.
pub fn shared_part_test_is_relation()
    ensures { SharedPartTestIsRelation }
{}

/// The test of overlapping meetings, with which definitions compute, is the relation.
pub fn overlap_test_is_relation()
    ensures { OverlapTestIsRelation }
{}

/// The test of clashing sections, with which definitions compute, is the relation.
pub fn clash_test_is_relation()
    ensures { ClashTestIsRelation }
{}

/// Two sections clash whichever is named first, and no section clashes with itself.
pub fn clashes_are_mutual()
    ensures { ClashesAreMutual }
{}
