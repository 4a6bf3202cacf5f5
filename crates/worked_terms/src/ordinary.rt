// Terms of three students: an ordinary one, and one whose catalogue has no section.

use crate::{WorkedMarket, WorkedTerm};

/// The ordinary term: three students and four sections, two of them of one course.
pub const ORDINARY_TERM: WorkedTerm = WorkedTerm {
    catalogue: ORDINARY_CATALOGUE,
    roll: ORDINARY_ROLL,
    text: ORDINARY_TEXT,
};

/// The ordinary term with its settings and its session.
pub const ORDINARY_MARKET: WorkedMarket = WorkedMarket {
    term: ORDINARY_TERM,
    settings: ORDINARY_SETTINGS,
    session: ORDINARY_SESSION,
};

/// Four sections, of which A and D are of one course and overlap.
pub const ORDINARY_CATALOGUE: &[u8] = b"section,course,seats,credits,meetings
A,ACCT,1,1,M0900-1020;W0900-1020
B,BIOL,2,1,M1020-1140
C,CHEM,2,1,T0900-1020
D,ACCT,1,1,M1000-1100
";

/// Three students of budgets 100 to 102.
pub const ORDINARY_ROLL: &[u8] = b"student,budget,credits,courses
ann,100,10,2
bob,101,10,2
cat,102,10,2
";

/// Settings that draw budgets and search five turns.
pub const ORDINARY_SETTINGS: &[u8] =
    br#"{"seed":0,"spread":2,"accept":1,"turns":5,"tabu":5,"patience":3,"steps":[1],"raise":10}"#;

/// What the three students rate, of whom one adjusts a pair.
pub const ORDINARY_SESSION: &[u8] = b"rate ann A 60
rate ann B 30
rate bob A 50
rate bob C 40
pair bob A C 10
rate cat A 20
rate cat D 45
close
";

/// What is published of the ordinary term.
pub const ORDINARY_TEXT: &str = "course-match 1
order 1 1 1 1 1 1 1 1
budget ann 104
budget bob 103
budget cat 102
start A 0
start B 0
start C 0
start D 0
error 1
price A 104
price B 0
price C 0
price D 0
bundle ann [A,B] ++*nn
bundle bob [C] -+*n
bundle cat [D] -+*n
turn 1 ann [A,B] ++*nn
turn 1 bob [C] -+*n
turn 1 cat [D] -+*n
final ann [A,B]
final bob [C]
final cat [D]
used A 1 1
used B 1 2
used C 1 2
used D 1 1
end
";

/// The ordinary term without its sections: its settings and its session are the same, and nobody
/// gets anything.
pub const NO_SECTIONS_TERM: WorkedTerm = WorkedTerm {
    catalogue: NO_SECTIONS_CATALOGUE,
    roll: ORDINARY_ROLL,
    text: NO_SECTIONS_TEXT,
};

/// A catalogue with no section.
pub const NO_SECTIONS_CATALOGUE: &[u8] = b"section,course,seats,credits,meetings\n";

/// What is published where there is no section.
pub const NO_SECTIONS_TEXT: &str = "course-match 1
order 1 1 1 1 1 1 1 1
budget ann 104
budget bob 103
budget cat 102
error 0
bundle ann [] *
bundle bob [] *
bundle cat [] *
turn 1 ann [] *
turn 1 bob [] *
turn 1 cat [] *
final ann []
final bob []
final cat []
end
";
