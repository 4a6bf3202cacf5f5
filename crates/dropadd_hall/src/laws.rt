//! What holds of the halls of published texts: each call here does nothing, and its contract is a
//! law.
ghost use Rattle.dropadd_hall.specs.Exactly.{FoundWhereNotOpened, NoFindingWhereOpened, OneOpeningFinding, OpensOrIsFound};
ghost use Rattle.dropadd_hall.specs.Laws.{ToldHallIsAllowed, ToldHallIsConserved, ToldHallServesTheFirst, ToldHallWaitsInOrder, ToldRefusalsChangeNothing};

/// A printed hall is what `hall` prints for a published text. After each request of a printed hall
/// it is so of each section. It has no more holders than seats, no free seat where somebody waits
/// for it, and nobody waits for it who holds it. Student by student: each holds it exactly where
/// the replies say so, from the student's final bundle on. The student holds it from the reply that
/// adds this student, or passes a seat on to this student, until the reply that this student gave
/// it up. So the holders are as many as in the final bundles, and one more for each who was added
/// and each to whom a seat was passed on, less one for each who gave it up. Each who was queued
/// waits still, or has once been given the section, lapsed or left; and of two who did not leave,
/// the one who was queued first was given the section or lapsed first.
pub fn told_hall_is_conserved()
    ensures { ToldHallIsConserved }
{}

/// In a printed hall the waiting list of a section keeps the order of those who wait. Whoever is
/// queued waits as the last one, behind all who wait already, and nobody else comes to wait. Whoever
/// waits no longer has left, or goes where a seat of the section was given up
/// (`told_hall_is_conserved` says who lapsed then, and who has the seat). As long as the earlier of
/// two waits, the later waits behind, unless the later leaves: so the earlier is never given the
/// seat or taken off after the later.
pub fn told_hall_waits_in_order()
    ensures { ToldHallWaitsInOrder }
{}

/// After each request of a printed hall what each student holds is allowed: no two of the sections
/// clash, and the caps are kept.
pub fn told_hall_is_allowed()
    ensures { ToldHallIsAllowed }
{}

/// In a printed hall a seat that is given up goes to the first of those who wait whom the section
/// fits beside what he then holds. Those before him lapse, and the reply tells how many; where
/// there is no such one all lapse, and nobody has the seat.
pub fn told_hall_serves_the_first()
    ensures { ToldHallServesTheFirst }
{}

/// In a printed hall a request that is refused changes nothing.
pub fn told_refusals_change_nothing()
    ensures { ToldRefusalsChangeNothing }
{}

/// Where the catalogue and the roll are in their ranges, a text has at most one opening finding.
pub fn one_opening_finding()
    ensures { OneOpeningFinding }
{}

/// Where the catalogue and the roll are in their ranges, a text with which a desk opens has no
/// opening finding.
pub fn no_finding_where_opened()
    ensures { NoFindingWhereOpened }
{}

/// A desk opens with the text of a publication, or there is an opening finding on it.
pub fn opens_or_is_found()
    ensures { OpensOrIsFound }
{}

/// No text, of a publication or not, is without an opening finding where no desk opens with it.
pub fn found_where_not_opened()
    ensures { FoundWhereNotOpened }
{}
