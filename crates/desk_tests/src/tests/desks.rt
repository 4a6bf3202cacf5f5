// Desks at which ann and bob say lines in one session.
use crate::tests::readers::tables_in;
use market_units::StudentNo;
use preference_desk::Desk;
use std::alloc::Global;
use std::process::Abort;
use std::test::Fail;
use utility_language::{Command, read_line};

const ROLL: &[u8] = b"student,budget,credits,courses\nann,100,10,2\nbob,101,10,2\n";

// Lines and their replies, one after the other at one desk with the sections X1 and X2.
const LINES: &str = "\
rate zoe Q 101 => NoStudent
rate ann Q 101 => NoSection
pair ann X1 Q 999 => NoSection
pair zoe X1 X1 1 => NoStudent
pair ann X1 X1 999 => SamePair
rate ann X1 -1 => OutOfRange
rate ann X1 101 => OutOfRange
pair ann X1 X2 -201 => OutOfRange
rate ann X1 -0 => Unreadable
clear zoe => NoStudent
rate ann X1 100 => Done
pair ann X2 X1 -200 => Done
close => Done
rate zoe Q 101 => Closed
close => Closed
no command => Unreadable
";

// What follows where ann has rated X1 to X60.
const AFTER_SIXTY: &str = "\
rate ann X61 1 => TooMany
rate ann X61 0 => Done
rate bob X61 1 => Done
rate ann X1 2 => Done
rate ann X1 0 => Done
rate ann X61 3 => Done
rate ann X1 1 => TooMany
";

// What follows where ann has adjusted the first two hundred of the pairs of X1 to X21.
const AFTER_TWO_HUNDRED: &str = "\
pair ann X21 X20 1 => TooMany
pair ann X21 X20 0 => Done
pair ann X2 X1 7 => Done
pair ann X3 X2 0 => Done
pair ann X21 X20 1 => Done
pair ann X2 X3 1 => TooMany
";

// Adjustments stay when a rating goes, and go when all is taken back.
const STAYING: &str = "\
rate ann X1 4 => Done
pair ann X2 X1 9 => Done
rate ann X1 0 => Done
";

// A catalogue of the sections X1, X2 and so on.
fn catalogue(alloc: Global, sections: u16) -> Result<String, Fail> {
    let mut text = String::from_str(alloc, "section,course,seats,credits,meetings\n")?;
    for section in 1..=sections {
        let row = format!(in alloc; "X{section},K,1,1,\n")?;
        text.push_str(row.as_str())?;
    }
    Ok(text)
}

// A desk for the sections of this catalogue.
fn desk_of(rt: &impl Abort, alloc: Global, catalogue: &[u8]) -> Result<Desk, Fail> {
    let (catalog, roll) = tables_in(rt, alloc, catalogue, ROLL);
    Ok(Desk::prepare(alloc, &catalog, &roll, 1_000)?)
}

fn desk(rt: &impl Abort, alloc: Global, sections: u16) -> Result<Desk, Fail> {
    let text = catalogue(alloc, sections)?;
    desk_of(rt, alloc, text.as_bytes())
}

// The reply to a line is this one.
fn say(
    rt: &impl Abort,
    alloc: Global,
    desk: &mut Desk,
    line: &str,
    wanted: &str,
) -> Result<(), Fail> {
    let command = read_line(line.as_bytes()).unwrap_or(Command::Unreadable);
    assert!(rt; desk.room() >= 1);
    let reply = desk.post(1, command);
    let told = format!(in alloc; "{reply:?}")?;
    assert_eq!(rt; told.as_str(), wanted, "{line}");
    Ok(())
}

// Each line has its reply.
fn say_each(rt: &impl Abort, alloc: Global, desk: &mut Desk, lines: &str) -> Result<(), Fail> {
    for case in lines.split_terminator('\n') {
        let Some((line, wanted)) = case.split_once(" => ") else {
            return Err(Fail::from("a line without a reply"));
        };
        say(rt, alloc, desk, line, wanted)?;
    }
    Ok(())
}

// What ann wants: how many ratings and the last of them, how many adjustments and the first.
fn wanted(rt: &impl Abort, alloc: Global, desk: &Desk) -> Result<String, Fail> {
    let preferences = desk.closed();
    assert!(rt; !preferences.is_empty());
    let ratings = preferences.ratings(StudentNo(0));
    let pairs = preferences.pairs(StudentNo(0));
    let last = ratings.last();
    let first = pairs.first();
    Ok(format!(in alloc; "{} {last:?} {} {first:?}", ratings.len(), pairs.len())?)
}

fn assert_wanted(rt: &impl Abort, alloc: Global, desk: &Desk, told: &str) -> Result<(), Fail> {
    let wants = wanted(rt, alloc, desk)?;
    assert_eq!(rt; wants.as_str(), told);
    Ok(())
}

#[test]
fn the_eight_replies_in_their_order(rt: HostRuntime) -> Result<(), Fail> {
    let mut desk = desk(&rt, rt.alloc(), 2)?;
    say_each(&rt, rt.alloc(), &mut desk, LINES)?;
    assert_eq!(rt; desk.journal().len(), 16);
    let told = "1 Some((SectionNo(0), 100)) 1 Some((SectionNo(0), SectionNo(1), -200))";
    assert_wanted(&rt, rt.alloc(), &desk, told)
}

// Ann rates the sections X1 to X60.
fn rate_sixty(rt: &impl Abort, alloc: Global, desk: &mut Desk) -> Result<(), Fail> {
    for section in 1..=60u16 {
        let line = format!(in alloc; "rate ann X{section} 1")?;
        say(rt, alloc, desk, line.as_str(), "Done")?;
    }
    Ok(())
}

#[test]
fn at_most_sixty_ratings(rt: HostRuntime) -> Result<(), Fail> {
    let mut desk = desk(&rt, rt.alloc(), 61)?;
    rate_sixty(&rt, rt.alloc(), &mut desk)?;
    say_each(&rt, rt.alloc(), &mut desk, AFTER_SIXTY)?;
    assert_wanted(&rt, rt.alloc(), &desk, "60 Some((SectionNo(60), 3)) 0 None")
}

// Ann adjusts the pair of the sections with these numbers by 5.
fn adjust(
    rt: &impl Abort,
    alloc: Global,
    desk: &mut Desk,
    first: u16,
    second: u16,
) -> Result<(), Fail> {
    let line = format!(in alloc; "pair ann X{first} X{second} 5")?;
    say(rt, alloc, desk, line.as_str(), "Done")
}

// Ann adjusts so many of the pairs of this section and the first ones.
fn adjust_each(
    rt: &impl Abort,
    alloc: Global,
    desk: &mut Desk,
    second: u16,
    count: u16,
) -> Result<(), Fail> {
    for first in 1..=count {
        adjust(rt, alloc, desk, first, second)?;
    }
    Ok(())
}

#[test]
fn at_most_two_hundred_adjustments(rt: HostRuntime) -> Result<(), Fail> {
    let mut desk = desk(&rt, rt.alloc(), 21)?;
    for (second, count) in (2..=20u16).zip(1..=19u16) {
        adjust_each(&rt, rt.alloc(), &mut desk, second, count)?;
    }
    adjust_each(&rt, rt.alloc(), &mut desk, 21, 10)?;
    say_each(&rt, rt.alloc(), &mut desk, AFTER_TWO_HUNDRED)?;
    let told = "0 None 200 Some((SectionNo(0), SectionNo(1), 7))";
    assert_wanted(&rt, rt.alloc(), &desk, told)
}

#[test]
fn adjustments_stay_when_a_rating_goes(rt: HostRuntime) -> Result<(), Fail> {
    let mut desk = desk(&rt, rt.alloc(), 3)?;
    say_each(&rt, rt.alloc(), &mut desk, STAYING)?;
    let told = "0 None 1 Some((SectionNo(0), SectionNo(1), 9))";
    assert_wanted(&rt, rt.alloc(), &desk, told)?;
    say_each(&rt, rt.alloc(), &mut desk, "clear ann => Done\n")?;
    assert_wanted(&rt, rt.alloc(), &desk, "0 None 0 None")
}
