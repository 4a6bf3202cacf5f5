// Terms of other catalogues: one with nobody, and those of several sections with two students.

use crate::{ACCEPT_0, ACCEPT_99, WorkedMarket, WorkedTerm};

/// A section of two seats and nobody who wants it.
pub const NOBODY_TERM: WorkedTerm = WorkedTerm {
    catalogue: NOBODY_CATALOGUE,
    roll: NOBODY_ROLL,
    text: "course-match 1
order
start A 0
error 0
price A 0
used A 0 2
end
",
};

/// Nobody, with settings and a session that says nothing.
pub const NOBODY_MARKET: WorkedMarket = WorkedMarket {
    term: NOBODY_TERM,
    settings: ACCEPT_0,
    session: b"",
};

/// One section of two seats.
pub const NOBODY_CATALOGUE: &[u8] = b"section,course,seats,credits,meetings\nA,AA,2,1,\n";

/// A roll with no student.
pub const NOBODY_ROLL: &[u8] = b"student,budget,credits,courses\n";

/// Two sections of one seat.
pub const TWO_SECTIONS_CATALOGUE: &[u8] =
    b"section,course,seats,credits,meetings\nA,AA,1,1,\nB,BB,1,1,\n";

/// Three sections of one seat.
pub const THREE_SECTIONS_CATALOGUE: &[u8] =
    b"section,course,seats,credits,meetings\nA,AA,1,1,\nB,BB,1,1,\nC,CC,1,1,\n";

/// Credits and courses that do not suffice.
pub const TIGHT_MARKET: WorkedMarket = WorkedMarket {
    term: WorkedTerm {
        catalogue: b"section,course,seats,credits,meetings
A,AA,1,3,
B,BB,1,2,
C,CC,1,5,
",
        roll: b"student,budget,credits,courses
ann,0,4,2
bob,0,4,0
",
        text: "course-match 1
order 1 1 1 1
budget ann 0
budget bob 0
start A 0
start B 0
start C 0
error 0
price A 0
price B 0
price C 0
bundle ann [A] +--*n
bundle bob [] -*
turn 1 ann [A] +--*n
turn 1 bob [] -*
final ann [A]
final bob []
used A 1 1
used B 0 1
used C 0 1
end
",
    },
    settings: ACCEPT_0,
    session: b"rate ann A 50
rate ann B 40
rate ann C 99
rate bob B 9
",
};

/// Without either of two sections of equal rating the other is still better than nothing.
pub const BEYOND_ONE_MARKET: WorkedMarket = WorkedMarket {
    term: WorkedTerm {
        catalogue: THREE_SECTIONS_CATALOGUE,
        roll: b"student,budget,credits,courses\nu,300,10,3\nv,100,10,3\n",
        text: "course-match 1
order 1 1 1 1 1
budget u 300
budget v 100
start A 0
start B 0
start C 0
error 2
price A 101
price B 101
price C 0
bundle u [A,B,C] +++*nnn
bundle v [] --*
turn 1 u [A,B,C] +++*nnn
turn 1 v [] --*
final u [A,B,C]
final v []
used A 1 1
used B 1 1
used C 1 1
end
",
    },
    settings: ACCEPT_99,
    session: b"rate u A 50\nrate u B 50\nrate v A 50\nrate v B 50\nrate u C 10\n",
};

/// Of two sections that a student has another one rates the second alone.
pub const USEFUL_MARKET: WorkedMarket = WorkedMarket {
    term: WorkedTerm {
        catalogue: TWO_SECTIONS_CATALOGUE,
        roll: b"student,budget,credits,courses\nu,300,10,2\nv,100,10,2\n",
        text: "course-match 1
order 1 1 1
budget u 300
budget v 100
start A 0
start B 0
error 1
price A 0
price B 101
bundle u [A,B] ++*nn
bundle v [] -*
turn 1 u [A,B] ++*nn
turn 1 v [] -*
final u [A,B]
final v []
used A 1 1
used B 1 1
end
",
    },
    settings: ACCEPT_99,
    session: b"rate u A 50\nrate u B 50\nrate v B 50\n",
};
