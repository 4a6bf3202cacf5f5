ghost use Rattle.std.specs.Prelude.{◌≡◌};
ghost use Rattle.preference_desk.specs.DeskView.{names_of};
ghost use Rattle.published_parts.specs.{Markets.names_in, Views.market_in};

use super::*;
use crate::writers::ROOM;
use course_catalog::read_catalog;
use demand_api::PlainDemands;
use market_certificate::put_publication;
use market_settings::read_settings;
use preference_desk::Desk;
use published_parts::Market;
use std::alloc::Global;
use std::process::Abort;
use std::sync::{Arc, Wait};
use std::test::Fail;
use std::thread::Threads;
use student_roll::read_roll;
use utility_language::{Command, read_stream};
use worked_terms::{
    ACCEPT_0, ACCEPT_8, EQUAL_MARKET, EQUAL_SESSION, FOUR_MARKET, FOUR_ROLL, FOUR_SESSION,
    NOBODY_CATALOGUE, NOBODY_MARKET, NOBODY_ROLL, ONE_SEAT_CATALOGUE, ORDINARY_MARKET,
    WorkedMarket,
};

const ANN: &[u8] = b"student,budget,credits,courses\nann,100,10,2\n";

const FOUR_SECTIONS: &[u8] =
    b"section,course,seats,credits,meetings\nA,AA,9,1,\nB,BB,30,1,\nC,CC,1,1,\nD,DD,2,1,\n";

const FORTY_NAMES: &[u8] = b"abcdefghijklmnopqrstuvwxyzABCDEFGHIJKLMN";

// Says each command at the desk, in session 1.
fn say_each(rt: &impl Abort, desk: &mut Desk, commands: &[Command])
    ensures { names_of desk.new ≡ names_of desk.old }
{
    'commands: for command in commands {
        assert!(rt; desk.room() >= 1);
        desk.post(1, *command);
    }
}

// The text that the market publishes after the desk's journal, or the least error where no prices
// are found. Its trees are written by these writers.
fn text_of<R: Abort + Threads + Wait + Sync>(
    rt: &R,
    alloc: Global,
    writers: Writers,
    market: &Market,
    desk: &Desk,
) -> Result<Vec<u8>, u64>
    requires { names_of desk.now ≡ names_in (market_in market.now) }
{
    let journal = desk.journal();
    assert!(rt; are_sessions(journal));
    let crowd = crowd_after(alloc, market, desk).expect(rt, "memory");
    let crowd = Arc::new(alloc, crowd).expect(rt, "memory");
    let mut demands = PlainDemands::make(crowd.clone().expect(rt, "memory"));
    match publish(rt, alloc, writers, market, journal, &crowd, &mut demands) {
        Ok(published) => {
            let text = put_publication(alloc, market.catalog, market.roll, &published.publication);
            Ok(text.expect(rt, "memory"))
        }
        Err(PublishEnd::NoPrices { least }) => Err(least),
        Err(PublishEnd::NoMemory) => panic!(rt; "memory"),
    }
}

// The texts of a market, and of its one session.
#[derive(Clone, Copy)]
struct Texts<'a> {
    catalog: &'a [u8],
    roll: &'a [u8],
    settings: &'a [u8],
    session: &'a [u8],
}

// What a market of these texts publishes, or the least error.
fn held<R: Abort + Threads + Wait + Sync>(
    rt: &R,
    alloc: Global,
    texts: &Texts,
) -> Result<Vec<u8>, u64> {
    held_by(rt, alloc, Writers::of(1), texts)
}

// The same, where these writers write its trees.
fn held_by<R: Abort + Threads + Wait + Sync>(
    rt: &R,
    alloc: Global,
    writers: Writers,
    texts: &Texts,
) -> Result<Vec<u8>, u64> {
    assert!(rt; texts.catalog.len() < 1000 && texts.roll.len() < 1000);
    let catalog = read_catalog(alloc, texts.catalog).expect(rt, "a catalogue");
    let roll = read_roll(alloc, texts.roll).expect(rt, "a roll");
    let settings = read_settings(alloc, texts.settings).expect(rt, "settings");
    let commands = read_stream(alloc, texts.session, 100).expect(rt, "commands");
    let mut desk = Desk::prepare(alloc, &catalog, &roll, 100).expect(rt, "memory");
    say_each(rt, &mut desk, &commands);
    let market = Market {
        catalog: &catalog,
        roll: &roll,
        settings: &settings,
    };
    text_of(rt, alloc, writers, &market, &desk)
}

// The market publishes its text.
fn try_market<R: Abort + Threads + Wait + Sync>(rt: &R, alloc: Global, market: &WorkedMarket) {
    let texts = Texts {
        catalog: market.term.catalogue,
        roll: market.term.roll,
        settings: market.settings,
        session: market.session,
    };
    let text = held(rt, alloc, &texts).expect(rt, "prices");
    assert_eq!(rt; text.as_slice(), market.term.text.as_bytes());
}

// The text with a line for each of the forty students: what stands before its name, the name, and
// what stands behind.
fn with_lines<R: Abort>(
    rt: &R,
    alloc: Global,
    text: &[u8],
    before: &[u8],
    behind: &[u8],
) -> Vec<u8> {
    let mut whole = text.to_vec(alloc).expect(rt, "memory");
    'names: for name in FORTY_NAMES {
        whole.extend_from_slice(before).expect(rt, "memory");
        whole.push(*name).expect(rt, "memory");
        whole.extend_from_slice(behind).expect(rt, "memory");
    }
    whole
}

// What the market of forty students and four sections publishes, where so many workers write trees
// to rooms of this size.
fn forty_by<R: Abort + Threads + Wait + Sync>(
    rt: &R,
    alloc: Global,
    workers: u16,
    room: usize,
) -> Vec<u8> {
    let settings =
        br#"{"seed":5,"spread":9,"accept":1000000,"turns":0,"tabu":5,"patience":3,"steps":[1],"raise":10}"#;
    let roll = with_lines(rt, alloc, NOBODY_ROLL, b"", b",100,10,2\n");
    let once = with_lines(rt, alloc, b"", b"rate ", b" A 50\n");
    let twice = with_lines(rt, alloc, &once, b"rate ", b" B 40\n");
    let texts = Texts {
        catalog: FOUR_SECTIONS,
        roll: &roll,
        settings,
        session: &twice,
    };
    let text = held_by(rt, alloc, Writers { workers, room }, &texts);
    text.expect(rt, "prices")
}

#[test]
fn nobody_is_enrolled(rt: HostRuntime) -> Result<(), Fail> {
    try_market(&rt, rt.alloc(), &NOBODY_MARKET);
    Ok(())
}

#[test]
fn a_student_wants_nothing(rt: HostRuntime) -> Result<(), Fail> {
    let texts = Texts {
        catalog: NOBODY_CATALOGUE,
        roll: ANN,
        settings: ACCEPT_0,
        session: b"",
    };
    let text = held(&rt, rt.alloc(), &texts).expect(&rt, "prices");
    let wanted =
        b"course-match 1\norder\nbudget ann 100\nstart A 0\nerror 0\nprice A 0\nbundle ann [] *\nturn 1 ann [] *\nfinal ann []\nused A 0 2\nend\n";
    assert_eq!(rt; text.as_slice(), wanted.as_slice());
    Ok(())
}

#[test]
fn an_ordinary_term(rt: HostRuntime) -> Result<(), Fail> {
    try_market(&rt, rt.alloc(), &ORDINARY_MARKET);
    Ok(())
}

#[test]
fn four_students_of_one_seat(rt: HostRuntime) -> Result<(), Fail> {
    try_market(&rt, rt.alloc(), &FOUR_MARKET);
    Ok(())
}

#[test]
fn an_error_that_is_not_accepted(rt: HostRuntime) -> Result<(), Fail> {
    let texts = Texts {
        catalog: ONE_SEAT_CATALOGUE,
        roll: FOUR_ROLL,
        settings: ACCEPT_8,
        session: FOUR_SESSION,
    };
    let text = held(&rt, rt.alloc(), &texts);
    assert!(rt; matches!(&text, Err(9)));
    Ok(())
}

#[test]
fn two_students_of_one_seat(rt: HostRuntime) -> Result<(), Fail> {
    try_market(&rt, rt.alloc(), &EQUAL_MARKET);
    Ok(())
}

#[test]
fn the_search_moves(rt: HostRuntime) -> Result<(), Fail> {
    let roll = b"student,budget,credits,courses\nu,100,10,1\nv,105,10,1\n";
    let settings =
        br#"{"seed":0,"spread":0,"accept":0,"turns":3,"tabu":5,"patience":3,"steps":[1],"raise":10}"#;
    let texts = Texts {
        catalog: ONE_SEAT_CATALOGUE,
        roll,
        settings,
        session: EQUAL_SESSION,
    };
    let text = held(&rt, rt.alloc(), &texts).expect(&rt, "prices");
    let wanted =
        b"course-match 1\norder 1 1\nbudget u 100\nbudget v 105\nstart X 101\nerror 0\nprice X 101\nbundle u [] -*\nbundle v [X] +*n\nturn 1 v [X] +*n\nturn 1 u [] -*\nfinal u []\nfinal v [X]\nused X 1 1\nend\n";
    assert_eq!(rt; text.as_slice(), wanted.as_slice());
    Ok(())
}

#[test]
fn forty_students_by_one_and_more_workers(rt: HostRuntime) -> Result<(), Fail> {
    let by_one = forty_by(&rt, rt.alloc(), 1, ROOM);
    let by_two = forty_by(&rt, rt.alloc(), 2, ROOM);
    let by_sixteen = forty_by(&rt, rt.alloc(), 16, ROOM);
    assert!(rt; by_one.len() > 1000);
    assert_eq!(rt; by_two.as_slice(), by_one.as_slice());
    assert_eq!(rt; by_sixteen.as_slice(), by_one.as_slice());
    Ok(())
}

#[test]
fn trees_that_do_not_fit_their_rooms(rt: HostRuntime) -> Result<(), Fail> {
    let by_one = forty_by(&rt, rt.alloc(), 1, ROOM);
    let in_none = forty_by(&rt, rt.alloc(), 2, 0);
    let in_three_bytes = forty_by(&rt, rt.alloc(), 2, 3);
    assert_eq!(rt; in_none.as_slice(), by_one.as_slice());
    assert_eq!(rt; in_three_bytes.as_slice(), by_one.as_slice());
    Ok(())
}
