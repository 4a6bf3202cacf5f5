//! What holds of trees: each call here does nothing, and its contract is a law.
ghost use Rattle.proof_tree.specs.Alphabets.{TreesHaveTreeBytes};
ghost use Rattle.proof_tree.specs.Laws.{NoDefectInATree, NoFailureInATree, OneTree, TreesProveTheBest, TreesProveTheBestWith};

/// A feasible, affordable, allowed champion has a canonical tree exactly where it is the best
/// bundle.
pub fn trees_prove_the_best()
    ensures { TreesProveTheBest }
{}

/// Such a champion that has a section has a forced tree exactly where it is the best bundle with
/// that section.
pub fn trees_prove_the_best_with()
    ensures { TreesProveTheBestWith }
{}

/// A node has at most one canonical sign, and at most one tree.
pub fn one_tree()
    ensures { OneTree }
{}

/// The text of the canonical tree has no defect.
pub fn no_defect_in_a_tree()
    ensures { NoDefectInATree }
{}

/// The walk of a tree with its text fails nowhere.
pub fn no_failure_in_a_tree()
    ensures { NoFailureInATree }
{}

/// The text of a canonical tree has one byte or more, each of them `*`, `n`, `b`, `c`, `m`, `+`,
/// `-` or a digit.
pub fn trees_have_tree_bytes()
    ensures { TreesHaveTreeBytes }
{}
