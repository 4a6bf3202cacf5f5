//! What holds of envy: each call here does nothing, and its contract is a law.
ghost use Rattle.fairness_audit.specs.Laws.{NoLowerCount, NoLowerEnvy, NoLowerCountInAccepted, NoLowerEnvyInAccepted};

/// Where all students have what they take at one price vector with their own budgets, no student
/// envies another one whose budget is at most its own: what it sees there costs at most what the
/// other paid, so it could have bought it.
pub fn no_lower_envy()
    ensures { NoLowerEnvy }
{}

/// Then the count of lower envy in each row is 0.
pub fn no_lower_count()
    ensures { NoLowerCount }
{}

/// In the second stage of an accepted text, whoever printed it, nobody has reason to envy one whose
/// printed budget is no greater than its own: whatever a student could take out of that one's
/// bundle, by its own ratings, caps and timetable, is worth no more to it than the bundle that it
/// has itself.
pub fn no_lower_envy_in_accepted()
    ensures { NoLowerEnvyInAccepted }
{}

/// So an audit of an accepted text counts no lower envy in any row of the second stage.
pub fn no_lower_count_in_accepted()
    ensures { NoLowerCountInAccepted }
{}
