// Words that ask for something, and words that are no form: lines of worked examples that were
// computed apart from this program.
use market_units::{Name, read_name};
use market_words::{Form, read_words};
use std::alloc::Global;
use std::test::Fail;

const NONE: [&str; 27] = [
    "audit 0 catalogue.csv roll.csv settings.json text session",
    "check catalogue.csv roll.csv settings.json text",
    "demand 2 catalogue.csv roll.csv settings.json prices.csv",
    "explain catalogue.csv roll.csv settings.json text ann B/C session",
    "explain catalogue.csv roll.csv settings.json text ann B",
    "RUN 2 catalogue.csv roll.csv settings.json session",
    "hall catalogue.csv roll.csv text",
    "make 1 7 2 2 0 0",
    "make 1 18446744073709551616 2 2 0",
    "make 1 7 2 2 1000000000001",
    "make 1 7 2 401 0",
    "make 1 7 2001 2 0",
    "make 1 7 2 0 0",
    "make 1 7 0 2 0",
    "prefer catalogue.csv roll.csv",
    "quote catalogue.csv session ann! 10 8",
    "quote catalogue.csv session ann 10 08",
    "quote catalogue.csv session nnnnnnnnnnnnnnnnnnnnnnnnnnnnnnnnn 10 8",
    "quote catalogue.csv session ann +10 8",
    "quote catalogue.csv session ann 10 9",
    "quote catalogue.csv session ann 801 8",
    "quote catalogue.csv session session ann 10 8",
    "run 02 catalogue.csv roll.csv settings.json session",
    "run 0 catalogue.csv roll.csv settings.json session",
    "run 17 catalogue.csv roll.csv settings.json session",
    "run 2 catalogue.csv roll.csv settings.json",
    "publish catalogue.csv",
];

// The words of a line, and so many words `session` behind them.
fn words_of(alloc: Global, line: &str, sessions: u32) -> Result<Vec<String>, Fail> {
    let mut words = Vec::new(alloc);
    for word in line.split(' ') {
        words.push(String::from_str(alloc, word)?)?;
    }
    for _ in 0..sessions {
        words.push(String::from_str(alloc, "session")?)?;
    }
    Ok(words)
}

#[test]
fn words_that_are_no_form(rt: HostRuntime) -> Result<(), Fail> {
    let alloc = rt.alloc();
    for line in NONE {
        let words = words_of(alloc, line, 0)?;
        assert!(rt; read_words(&words).is_none(), "{line}");
    }
    let none = Vec::new(alloc);
    assert!(rt; read_words(&none).is_none());
    Ok(())
}

// From 1 to 64 sessions stand behind the other words of a form.
#[test]
fn numbers_of_sessions(rt: HostRuntime) -> Result<(), Fail> {
    let alloc = rt.alloc();
    for line in [
        "prefer catalogue.csv roll.csv",
        "run 2 catalogue.csv roll.csv settings.json",
        "check catalogue.csv roll.csv settings.json text",
        "explain catalogue.csv roll.csv settings.json text ann B",
    ] {
        for (sessions, is_form) in [(0, false), (1, true), (64, true), (65, false)] {
            let words = words_of(alloc, line, sessions)?;
            assert_eq!(rt; read_words(&words).is_some(), is_form, "{line} {sessions}");
        }
    }
    Ok(())
}

// The student and the section that `explain` asks about.
fn names_of(words: &[String]) -> Option<(Name, Name)> {
    match read_words(words)?.form {
        Form::Explain { student, section } => Some((student, section)),
        _ => None,
    }
}

#[test]
fn a_student_and_a_section_are_named(rt: HostRuntime) -> Result<(), Fail> {
    let alloc = rt.alloc();
    let line = "explain catalogue.csv roll.csv settings.json text bob B session";
    let words = words_of(alloc, line, 0)?;
    let (student, section) = names_of(&words).expect(&rt, "a form");
    assert!(rt; read_name(b"bob") == Some(student));
    assert!(rt; read_name(b"B") == Some(section));
    Ok(())
}
