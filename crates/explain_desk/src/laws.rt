//! What holds of explanations: each call here does nothing, and its contract is a law.
ghost use Rattle.explain_desk.specs.Laws.{ForcedTreesProveTheBest, NothingIsGained, OneExplanation, OneReason, ReasonsLeaveABundle};
ghost use Rattle.explain_desk.specs.ToldTrees.{ToldTreeIsTheOnlyOne};

/// At most one reason is the first that applies.
pub fn one_reason()
    ensures { OneReason }
{}

/// Some bundle with a section that the student does not hold can be had exactly where the reason
/// leaves one: a clash, a limit beside the bundle, or less utility.
pub fn reasons_leave_a_bundle()
    ensures { ReasonsLeaveABundle }
{}

/// A feasible, affordable champion with the section has a forced tree exactly where it is the best
/// bundle with the section.
pub fn forced_trees_prove_the_best()
    ensures { ForcedTreesProveTheBest }
{}

/// Where a student of an accepted text is told the best bundle with a section, no other bundle with
/// the section has a forced tree, of those that the student may take and that its printed budget
/// pays at the printed prices. What it may take is by what all sessions said of it, in the printed
/// order.
pub fn told_tree_is_the_only_one()
    ensures { ToldTreeIsTheOnlyOne }
{}

/// A student is told one thing of a section.
pub fn one_explanation()
    ensures { OneExplanation }
{}

/// A student gains nothing of utility by the best bundle with a section.
pub fn nothing_is_gained()
    ensures { NothingIsGained }
{}
