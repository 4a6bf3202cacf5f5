// What stands on the shelf where a command names it: small tables, sessions, the parts of worked
// terms, and what is told of them.
use super::*;
use worked_terms::{
    ACCEPT_0, ACCEPT_1, ACCEPT_8, ACCEPT_9, ACCEPT_99, BEYOND_ONE_ENVY, BEYOND_ONE_MARKET,
    CARRIED_TERM, DROPPED_SEAT_HALL, EACH_REPLY_HALL, EQUAL_ENVY, EQUAL_MARKET,
    FIVE_SECTIONS_FIRST, FIVE_SECTIONS_SECOND, FIVE_SECTIONS_TERM, FIVE_STUDENTS_TERM, FOUR_ENVY,
    FOUR_FIRST_TWO, FOUR_LAST_TWO, FOUR_MARKET, LOWER_BASE_ENVY, LOWER_BASE_MARKET,
    NO_SECTIONS_TERM, NOBODY_MARKET, ORDINARY_ENVY, ORDINARY_MARKET, STAYING_SESSION, SWAPS_MARKET,
    THREE_SECTIONS_CATALOGUE, TIES_MARKET, TIGHT_MARKET, TWO_SECTIONS_CATALOGUE,
    TWO_STUDENTS_SESSION, USEFUL_ENVY, USEFUL_MARKET, WAITING_HALL, WorkedHall, WorkedMarket,
    WorkedSession, WorkedTerm,
};

// One student who takes one of two sections.
const SINGLE: WorkedMarket = WorkedMarket {
    term: WorkedTerm {
        catalogue: TWO_SECTIONS_CATALOGUE,
        roll: b"student,budget,credits,courses\nann,0,10,1\n",
        text: "course-match 1
order 1 1
budget ann 0
start A 0
start B 0
error 0
price A 0
price B 0
bundle ann [A] +-*n
turn 1 ann [A] +-*n
final ann [A]
used A 1 1
used B 0 1
end
",
    },
    settings: ACCEPT_0,
    session: TIE,
};

const TIE: &[u8] = b"rate ann A 50\nrate ann B 50\n";

static TABLES: [File<'static>; 17] = [
    ("ONE", b"section,course,seats,credits,meetings\nA,AA,1,1,\n"),
    ("TWO", TWO_SECTIONS_CATALOGUE),
    ("THREE", THREE_SECTIONS_CATALOGUE),
    (
        "PARTS",
        b"section,course,seats,credits,meetings,parts\nA,AA,1,1,,1\nB,BB,1,1,,2\n",
    ),
    (
        "X+Y",
        b"section,course,seats,credits,meetings\nX,XX,1,1,\nY,YY,2,1,\n",
    ),
    (
        "CRLF-TERM",
        b"\xef\xbb\xbfsection,course,seats,credits,meetings\r
A,ACCT,1,1,M0900-1020;W0900-1020\r
B,BIOL,2,1,M1020-1140\r
C,CHEM,2,1,T0900-1020\r
D,ACCT,1,1,M1000-1100\r
",
    ),
    ("ANN", b"student,budget,credits,courses\nann,100,10,1\n"),
    (
        "ANN+BOB",
        b"student,budget,credits,courses\nann,100,10,1\nbob,100,10,1\n",
    ),
    ("ACCEPT0", ACCEPT_0),
    ("ACCEPT1", ACCEPT_1),
    ("ACCEPT8", ACCEPT_8),
    ("ACCEPT9", ACCEPT_9),
    ("ACCEPT99", ACCEPT_99),
    ("X=102", b"section,price\nX,102\n"),
    ("X=103", b"section,price\nX,103\n"),
    ("X=1000001", b"section,price\nX,1000001\n"),
    ("EMPTY", b""),
];

// What is said in sessions.
static SESSIONS: [File<'static>; 12] = [
    ("TIE", TIE),
    ("BYTES", b"\xff\xfe\x00\nrate ann A 1\n"),
    ("RATE-X", b"rate s1 X 50\n"),
    ("RATE-A", b"rate ann A 9\n"),
    ("RATE-A+B", b"rate ann A 10\nrate ann B 10\n"),
    ("FIRST-TWO", FOUR_FIRST_TWO),
    ("LAST-TWO", FOUR_LAST_TWO),
    ("COMMENT", b"# nothing yet\n"),
    ("DROP-X", b"drop u X\n"),
    ("BLANK", b"\n"),
    ("five.first", FIVE_SECTIONS_FIRST),
    ("five.second", FIVE_SECTIONS_SECOND),
];

// What is told: in an audit, of a student whose sections have rating 10, in a hall of drop and add,
// and of what students take, the four of one seat at price 102 and those of the ordinary term at
// 104.
static TOLD: [(&str, &str); 11] = [
    ("term.envy", ORDINARY_ENVY),
    ("four.envy", FOUR_ENVY),
    ("equal.envy", EQUAL_ENVY),
    ("lower.envy", LOWER_BASE_ENVY),
    ("beyond.envy", BEYOND_ONE_ENVY),
    ("useful.envy", USEFUL_ENVY),
    ("takes.A", "bundle ann [A]\nutility 10\n"),
    ("takes.A+B", "bundle ann [A,B]\nutility 20\n"),
    (
        "last.told",
        "entry 1 drop u X: dropped 0
entry 2 add v X: added
entry 1 add u X: queued 0
final u []
final v [X]
wait X u
used X 1 1
used Y 0 2
",
    ),
    (
        "four.demand",
        "order 1 1 1 1
bundle s1 []
bundle s2 []
bundle s3 [X]
bundle s4 [X]
count X 2
error 1
",
    ),
    (
        "term.demand",
        "order 1 1 1 1 1 1 1 1
bundle ann [A,B]
bundle bob [C]
bundle cat [D]
count A 1
count B 1
count C 1
count D 1
error 0
",
    ),
];

static MARKETS: [(&str, WorkedMarket); 11] = [
    ("single", SINGLE),
    ("term", ORDINARY_MARKET),
    ("four", FOUR_MARKET),
    ("equal", EQUAL_MARKET),
    ("lower", LOWER_BASE_MARKET),
    ("ties", TIES_MARKET),
    ("swaps", SWAPS_MARKET),
    ("tight", TIGHT_MARKET),
    ("beyond", BEYOND_ONE_MARKET),
    ("useful", USEFUL_MARKET),
    ("nobody", NOBODY_MARKET),
];

static TERMS: [(&str, WorkedTerm); 4] = [
    ("carried", CARRIED_TERM),
    ("none", NO_SECTIONS_TERM),
    ("five", FIVE_SECTIONS_TERM),
    ("wait", FIVE_STUDENTS_TERM),
];

static DESKS: [(&str, WorkedSession); 2] = [
    ("staying", STAYING_SESSION),
    ("students", TWO_STUDENTS_SESSION),
];

static HALLS: [(&str, WorkedHall); 3] = [
    ("dropped", DROPPED_SEAT_HALL),
    ("each", EACH_REPLY_HALL),
    ("waiting", WAITING_HALL),
];

/// The text of this name: a table, a session, what is told, or a part of what was worked, as
/// `term.cat`. `None` where nothing has it.
pub(super) fn text_named(name: &str) -> Option<&'static [u8]> {
    if let Some(bytes) = named(&TABLES, name) {
        return Some(bytes);
    }
    if let Some(bytes) = named(&SESSIONS, name) {
        return Some(bytes);
    }
    match named(&TOLD, name) {
        Some(text) => Some(text.as_bytes()),
        None => part_named(name),
    }
}

fn named<T>(rows: &'static [(&'static str, T)], name: &str) -> Option<&'static T> {
    for (held, value) in rows {
        if *held == name {
            return Some(value);
        }
    }
    None
}

fn part_named(name: &str) -> Option<&'static [u8]> {
    let (of, part) = name.split_once('.')?;
    match part {
        "said" => Some(named(&DESKS, of)?.said),
        "requests" => Some(named(&HALLS, of)?.requests),
        "told" => told_of(of),
        _ => match named(&MARKETS, of) {
            Some(market) => part_of_market(market, part),
            None => part_of_term(named(&TERMS, of)?, part),
        },
    }
}

fn told_of(of: &str) -> Option<&'static [u8]> {
    match named(&DESKS, of) {
        Some(session) => Some(session.told.as_bytes()),
        None => Some(named(&HALLS, of)?.told.as_bytes()),
    }
}

fn part_of_market(market: &WorkedMarket, part: &str) -> Option<&'static [u8]> {
    match part {
        "set" => Some(market.settings),
        "s1" => Some(market.session),
        _ => part_of_term(&market.term, part),
    }
}

fn part_of_term(term: &WorkedTerm, part: &str) -> Option<&'static [u8]> {
    match part {
        "cat" => Some(term.catalogue),
        "stu" => Some(term.roll),
        "text" => Some(term.text.as_bytes()),
        _ => None,
    }
}
