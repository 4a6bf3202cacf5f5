//! What holds of a shared desk: each call here does nothing, and its contract is a law.
ghost use Rattle.dropadd_desk.specs.Laws.{AllowedLaw, ConservationLaw, FirstFitLaw, RefusalLaw, RepliesInRangeLaw, WaitsInOrderLaw};

/// A desk opens so that nobody waits, no section is over its seats, and each student's sections
/// keep timetable and caps. After any requests, each section then has no more holders than seats,
/// no free seat where somebody waits for it, and nobody waits for it who holds it.
/// Student by student: each holds it exactly where the replies say so, from what the student held
/// at the opening on. The student holds it from the reply that adds this student, or passes a seat
/// on to this student, until the reply that this student gave it up. So the holders are as many as
/// at the opening, and one more for each who was added and each to whom a seat was passed on, less
/// one for each who gave it up. Each who was queued waits still, or has once been given the
/// section, lapsed or left; and of two who did not leave, the one who was queued first was given
/// the section or lapsed first.
pub fn conservation()
    ensures { ConservationLaw }
{}

/// The desk's own list of a section keeps the order of those who wait. Whoever is queued waits as
/// the last one, behind all who wait already, and nobody else comes to wait. Whoever waits no longer
/// has left, or goes where a seat of the section was given up (`conservation` says who lapsed then,
/// and who has the seat). As long as the earlier of two waits, the later waits behind, unless the
/// later leaves: so the earlier is never given the seat or taken off after the later.
pub fn waits_in_order()
    ensures { WaitsInOrderLaw }
{}

/// What each student holds is allowed at every time, where it is so at the opening: no two of the
/// sections clash, and the student's caps are kept.
pub fn held_is_allowed()
    ensures { AllowedLaw }
{}

/// A seat that is given up goes to the first of those who wait whom the section fits beside what he
/// then holds. Those before him lapse, and the reply tells how many; where there is no such one all
/// lapse, and nobody has the seat.
pub fn first_whom_it_fits()
    ensures { FirstFitLaw }
{}

/// A request that is refused changes nothing.
pub fn refusals_change_nothing()
    ensures { RefusalLaw }
{}

/// Replies name sections of the catalogue and students of the roll.
pub fn replies_in_range()
    ensures { RepliesInRangeLaw }
{}
