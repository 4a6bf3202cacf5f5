//! What holds of bounds, of pruning and of open places: each call here does nothing, and its
//! contract is a law.
ghost use Rattle.bundle_bounds.specs.{Laws.BoundSoundness, Lines.BoundsAreConvex};
ghost use Rattle.bundle_bounds.specs.PruningLaws.{BoundsPruneSoundly, FirstPruningIsTheFirst, OpensWhereTakable};

/// Each bound at a node is at least 1000 times the utility of each feasible, affordable, allowed
/// bundle whose sections at decided places are the chosen ones.
pub fn bounds_are_sound()
    ensures { BoundSoundness }
{}

/// Where a bound prunes a node for a champion, no takable bundle that completes the node is better
/// than it; so no wanted one is, whatever bundles are wanted.
pub fn bounds_prune_soundly()
    ensures { BoundsPruneSoundly }
{}

/// The first pruning bound as a value is the first of the menu of bounds that prunes the node, and
/// `None` exactly where none does.
pub fn first_pruning_is_the_first()
    ensures { FirstPruningIsTheFirst }
{}

/// An undecided place is open exactly where its section may be taken with the chosen ones.
pub fn opens_where_takable()
    ensures { OpensWhereTakable }
{}

/// As a function of its price, a resource's bound is on or above each line through one of its
/// points.
pub fn bounds_are_convex()
    ensures { BoundsAreConvex }
{}
