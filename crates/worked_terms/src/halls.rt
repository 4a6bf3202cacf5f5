// Terms of drop and add: what is published of them is where a hall opens; and halls, with what is
// told of them.

use crate::{EQUAL_TERM, WorkedHall, WorkedTerm};

/// Three students and five sections, of which two clash.
pub const FIVE_SECTIONS_TERM: WorkedTerm = WorkedTerm {
    catalogue: b"section,course,seats,credits,meetings\nA,AA,1,2,M0900-1000\nB,BB,2,2,M0930-1030\nC,CC,9,4,\nD,DD,9,1,\nE,EE,9,1,\n",
    roll: b"student,budget,credits,courses\nu,0,5,2\nv,0,5,2\nw,0,5,2\n",
    text: "course-match 1
order 1
budget u 0
budget v 0
budget w 0
start A 0
start B 0
start C 0
start D 0
start E 0
error 0
price A 0
price B 0
price C 0
price D 0
price E 0
bundle u [A] +*n
bundle v [] *
bundle w [] *
turn 1 u [A] +*n
turn 1 v [] *
turn 1 w [] *
final u [A]
final v []
final w []
used A 1 1
used B 0 2
used C 0 9
used D 0 9
used E 0 9
end
",
};

/// Five students, of whom four can wait for one seat.
pub const FIVE_STUDENTS_TERM: WorkedTerm = WorkedTerm {
    catalogue: b"section,course,seats,credits,meetings\nA,AA,1,1,M0900-1000\nB,BB,9,1,M0900-1000\nC,CC,9,1,\n",
    roll: b"student,budget,credits,courses\nu,0,9,2\nv,0,9,2\nw,0,9,2\nx,0,9,2\ny,0,9,2\n",
    text: "course-match 1
order 1
budget u 0
budget v 0
budget w 0
budget x 0
budget y 0
start A 0
start B 0
start C 0
error 0
price A 0
price B 0
price C 0
bundle u [A] +*n
bundle v [] *
bundle w [] *
bundle x [] *
bundle y [] *
turn 1 u [A] +*n
turn 1 v [] *
turn 1 w [] *
turn 1 x [] *
turn 1 y [] *
final u [A]
final v []
final w []
final x []
final y []
used A 1 1
used B 0 9
used C 0 9
end
",
};

/// The first who waits gets a dropped seat, and gives it back to the one who had it.
pub const DROPPED_SEAT_HALL: WorkedHall = WorkedHall {
    term: EQUAL_TERM,
    requests: b"add v X\ndrop u X\nadd u X\ndrop v X\n",
    told: "entry 1 add v X: queued 0
entry 1 drop u X: dropped 0 to v
entry 1 add u X: queued 0
entry 1 drop v X: dropped 0 to u
final u [X]
final v []
used X 1 1
",
};

/// Requests that have each reply, where the first student holds the first section.
pub const EACH_REPLY_HALL: WorkedHall = WorkedHall {
    term: FIVE_SECTIONS_TERM,
    requests: b"drop
add z Q
add u Q
leave z A
add u A
add u B
add u C
add u D
add u E
add v A
add v A
add w A
leave w B
drop v B
drop u A
add u A
drop v A
leave w A
leave u A
add w D
add w E
add w B
drop w D
add w C #
add w C
",
    told: "entry 1 unreadable: unreadable
entry 1 add z Q: no-student
entry 1 add u Q: no-section
entry 1 leave z A: no-student
entry 1 add u A: holding
entry 1 add u B: clash A
entry 1 add u C: credits
entry 1 add u D: added
entry 1 add u E: courses
entry 1 add v A: queued 0
entry 1 add v A: waiting
entry 1 add w A: queued 1
entry 1 leave w B: not-waiting
entry 1 drop v B: not-holding
entry 1 drop u A: dropped 0 to v
entry 1 add u A: queued 1
entry 1 drop v A: dropped 0 to w
entry 1 leave w A: not-waiting
entry 1 leave u A: left
entry 1 add w D: added
entry 1 add w E: courses
entry 1 add w B: clash A
entry 1 drop w D: dropped 0
entry 1 unreadable: unreadable
entry 1 add w C: credits
final u [D]
final v []
final w [A]
used A 1 1
used B 0 2
used C 0 9
used D 1 9
used E 0 9
",
};

/// The third student waits behind the second one for what the first one holds.
pub const WAITING_HALL: WorkedHall = WorkedHall {
    term: FIVE_SECTIONS_TERM,
    requests: b"add v A\nadd w A\n",
    told: "entry 1 add v A: queued 0
entry 1 add w A: queued 1
final u [A]
final v []
final w []
wait A v w
used A 1 1
used B 0 2
used C 0 9
used D 0 9
used E 0 9
",
};

/// The requests of one of two sessions of the hall of five sections, which have the same replies in
/// every order that keeps each session's own.
pub const FIVE_SECTIONS_FIRST: &[u8] = b"drop u A\nadd u D\nadd u E\nadd u Q\n";

/// The requests of the other session.
pub const FIVE_SECTIONS_SECOND: &[u8] = b"add v B\nno request\nadd w C\n";

/// What is told of the two sessions behind their entries.
pub const FIVE_SECTIONS_HELD: &str = "final u [D,E]
final v [B]
final w [C]
used A 0 1
used B 1 2
used C 1 9
used D 1 9
used E 1 9
";
