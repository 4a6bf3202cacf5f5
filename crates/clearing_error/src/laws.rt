//! What holds of the clearing error: the call here does nothing, and its contract is a law.
ghost use Rattle.clearing_error.specs.Laws.{ErrorByTop};

/// Prices above a top of at least 1 act as the top: the error only asks whether a price is above 0.
pub fn error_by_top()
    ensures { ErrorByTop }
{}
