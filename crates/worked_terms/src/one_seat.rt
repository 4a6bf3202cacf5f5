// Terms of one seat that several students want.

use crate::{ACCEPT_1, ACCEPT_9, WorkedMarket, WorkedTerm};

/// Four students and one seat: the greatest budget gets it.
pub const FOUR_MARKET: WorkedMarket = WorkedMarket {
    term: WorkedTerm {
        catalogue: ONE_SEAT_CATALOGUE,
        roll: FOUR_ROLL,
        text: "course-match 1
order 1 1 1 1
budget s1 100
budget s2 101
budget s3 102
budget s4 103
start X 0
error 9
price X 103
bundle s1 [] -*
bundle s2 [] -*
bundle s3 [] -*
bundle s4 [X] +*n
turn 1 s4 [X] +*n
turn 1 s3 [] -*
turn 1 s2 [] -*
turn 1 s1 [] -*
final s1 []
final s2 []
final s3 []
final s4 [X]
used X 1 1
end
",
    },
    settings: ACCEPT_9,
    session: FOUR_SESSION,
};

/// One section of one seat.
pub const ONE_SEAT_CATALOGUE: &[u8] = b"section,course,seats,credits,meetings\nX,XX,1,1,\n";

/// Four students of budgets 100 to 103.
pub const FOUR_ROLL: &[u8] =
    b"student,budget,credits,courses\ns1,100,10,1\ns2,101,10,1\ns3,102,10,1\ns4,103,10,1\n";

/// Each of the four rates the section alike.
pub const FOUR_SESSION: &[u8] = b"rate s1 X 50\nrate s2 X 50\nrate s3 X 50\nrate s4 X 50\n";

/// The first two of the four say so.
pub const FOUR_FIRST_TWO: &[u8] = b"rate s1 X 50\nrate s2 X 50\n";

/// The last two of the four say so.
pub const FOUR_LAST_TWO: &[u8] = b"rate s3 X 50\nrate s4 X 50\n";

/// Two students of equal budgets and a seat that neither can buy: it is filled in the aftermarket,
/// in two passes.
pub const EQUAL_TERM: WorkedTerm = WorkedTerm {
    catalogue: ONE_SEAT_CATALOGUE,
    roll: EQUAL_ROLL,
    text: "course-match 1
order 1 1
budget u 100
budget v 100
start X 0
error 1
price X 101
bundle u [] -*
bundle v [] -*
turn 1 u [X] +*n
turn 1 v [] -*
turn 2 u [X] +*n
turn 2 v [] -*
final u [X]
final v []
used X 1 1
end
",
};

/// Two students of equal budgets, with their settings and their session.
pub const EQUAL_MARKET: WorkedMarket = WorkedMarket {
    term: EQUAL_TERM,
    settings: ACCEPT_1,
    session: EQUAL_SESSION,
};

/// Two students of equal budgets.
pub const EQUAL_ROLL: &[u8] = b"student,budget,credits,courses\nu,100,10,1\nv,100,10,1\n";

/// Each of the two rates the section alike.
pub const EQUAL_SESSION: &[u8] = b"rate u X 50\nrate v X 50\n";

/// The same seat, where the carried tokens of one student suffice.
pub const CARRIED_TERM: WorkedTerm = WorkedTerm {
    catalogue: ONE_SEAT_CATALOGUE,
    roll: CARRIED_ROLL,
    text: CARRIED_TEXT,
};

/// Two students of equal bases, of whom the second carries five tokens.
pub const CARRIED_ROLL: &[u8] =
    b"student,budget,credits,courses,carry\nu,100,10,1,0\nv,100,10,1,5\n";

/// What is published where the second student has five tokens more.
pub const CARRIED_TEXT: &str = "course-match 2
order 1 1
budget u 100
budget v 105
start X 0
error 1
price X 101
bundle u [] -*
bundle v [X] +*n
turn 1 v [X] +*n
turn 1 u [] -*
final u []
final v [X]
used X 1 1
end
";

/// The student whose budget is the greater is not the one whose base is; the budgets are those of
/// the carried tokens.
pub const LOWER_BASE_MARKET: WorkedMarket = WorkedMarket {
    term: WorkedTerm {
        catalogue: ONE_SEAT_CATALOGUE,
        roll: LOWER_BASE_ROLL,
        text: CARRIED_TEXT,
    },
    settings: ACCEPT_1,
    session: EQUAL_SESSION,
};

/// Two students, of whom the second has the lower base and carries tokens.
pub const LOWER_BASE_ROLL: &[u8] =
    b"student,budget,credits,courses,carry\nu,100,10,1,0\nv,90,10,1,15\n";
