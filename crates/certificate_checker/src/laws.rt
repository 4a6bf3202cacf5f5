//! What holds of accepted texts: each call here does nothing, and its contract is a law.
ghost use Rattle.certificate_checker.specs.Laws.{AcceptedIsOptimal, NoFindingInAccepted, OneFirstFinding, OneTextForPrices};

/// What is accepted is optimal, whoever printed it. In the second stage each student has the best
/// bundle that its budget buys at the printed prices. The turns come in passes, in each of which
/// each student has one turn, by budget before any raise; at each it gets the best that its raised
/// budget buys of what it holds and of what is free; in the last pass, and in no other, nobody
/// changes anything. Each student's final bundle is what its last turn left, and the best that it
/// may have in the end. The used seats are those that the final bundles take. No section has more
/// students than seats, at any time.
pub fn accepted_is_optimal()
    ensures { AcceptedIsOptimal }
{}

/// An accepted text is fixed by its order, start, error and price lines: nothing else in it is
/// free.
pub fn one_text_for_prices()
    ensures { OneTextForPrices }
{}

/// Where the catalogue and the roll are in their ranges, an accepted text has no first finding.
pub fn no_finding_in_accepted()
    ensures { NoFindingInAccepted }
{}

/// Where the catalogue and the roll are in their ranges, a text has at most one first finding. So a
/// check that does not want for memory has one answer.
pub fn one_first_finding()
    ensures { OneFirstFinding }
{}
