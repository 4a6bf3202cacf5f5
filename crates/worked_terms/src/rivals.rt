// Terms of three students who want the same sections.

use crate::{
    ACCEPT_99, THREE_SECTIONS_CATALOGUE, TWO_SECTIONS_CATALOGUE, WorkedMarket, WorkedTerm,
};

/// Each student wants both of two sections: of equal excess the lowest ordinal is raised.
pub const TIES_MARKET: WorkedMarket = WorkedMarket {
    term: WorkedTerm {
        catalogue: TWO_SECTIONS_CATALOGUE,
        roll: b"student,budget,credits,courses\nu,100,10,2\nv,101,10,2\nw,102,10,2\n",
        text: "course-match 1
order 1 1 1 1 1 1
budget u 100
budget v 101
budget w 102
start A 0
start B 0
error 8
price A 102
price B 101
bundle u [] --*
bundle v [B] -+*n
bundle w [A] +-*n
turn 1 w [A] +-*n
turn 1 v [B] -+*n
turn 1 u [] --*
final u []
final v [B]
final w [A]
used A 1 1
used B 1 1
end
",
    },
    settings: ACCEPT_99,
    session: b"rate u A 50
rate u B 50
rate v A 50
rate v B 50
rate w A 50
rate w B 50
",
};

/// A student takes a better section in the first pass of the aftermarket, and another one takes
/// what it gave up.
pub const SWAPS_MARKET: WorkedMarket = WorkedMarket {
    term: WorkedTerm {
        catalogue: THREE_SECTIONS_CATALOGUE,
        roll: b"student,budget,credits,courses\nu,100,10,1\nv,100,10,1\nw,99,10,1\n",
        text: "course-match 1
order 1 1 1 1 1 1 1
budget u 100
budget v 100
budget w 99
start A 0
start B 0
start C 0
error 4
price A 101
price B 100
price C 100
bundle u [B] -+*n
bundle v [C] -+*n
bundle w [] ---*
turn 1 u [A] +-*n
turn 1 v [C] -+*n
turn 1 w [B] -+-*n
turn 2 u [A] +-*n
turn 2 v [C] -+*n
turn 2 w [B] -+-*n
final u [A]
final v [C]
final w [B]
used A 1 1
used B 1 1
used C 1 1
end
",
    },
    settings: SWAPS_SETTINGS,
    session: b"rate u A 60
rate u B 50
rate v A 60
rate v C 30
rate w B 60
rate w C 50
rate w A 70
",
};

// They draw nothing and search no turn, and accept an error of at most 20.
const SWAPS_SETTINGS: &[u8] =
    br#"{"seed":0,"spread":0,"accept":20,"turns":0,"tabu":5,"patience":3,"steps":[1],"raise":10}"#;
