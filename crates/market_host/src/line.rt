// The lines of calls that are stopped, made without memory.
ghost use Rattle.std.specs.Prelude.{◌≡◌, ◌≤◌, ◌+◌, ◌++◌, length, codes};
ghost use Rattle.std.specs.Fmt.{decimal};
ghost use Rattle.market_settings.specs.Keys.{key_name};
ghost use Rattle.market_host.specs.Checks.{accepted_line};
ghost use Rattle.market_host.specs.Lines.{cause_words, line_of, no_prices_line, unknown_line, usage_line};

use crate::Cause;
use crate::trouble::Trouble;
use market_settings::Key;
use status_line::Line;

/// The line of words that have no form.
pub fn usage() -> Line
    ensures { result ≡ usage_line }
{
    Line::empty().with(b"usage: run, check, prefer, demand, quote, make, explain, hall, audit\n")
}

/// The line that says that no prices are found, with the least error.
pub fn no_prices(least: u64) -> Line
    ensures { result ≡ no_prices_line least }
{
    Line::empty()
        .with(b"no prices: least error ")
        .with_number(least)
        .with(b"\n")
}

/// The line that says that a published text is accepted.
pub fn accepted() -> Line
    ensures { result ≡ accepted_line }
{
    Line::empty().with(b"accepted\n")
}

/// The line that says which word of the command line names nothing.
pub fn unknown_name(word: u16) -> Line
    ensures { result ≡ unknown_line word }
{
    Line::empty()
        .with(b"no such name: word ")
        .with_number(u64::from(word))
        .with(b"\n")
}

/// The line that says what stops a call.
pub fn line_for(trouble: Trouble) -> Line
    ensures { result ≡ line_of trouble }
{
    match trouble {
        Trouble::ShelfFault { input } => numbered(input).with(b" can not be read\n"),
        Trouble::Refused { input, row, cause } => {
            let line = numbered(input)
                .with(b" row ")
                .with_number(u64::from(row))
                .with(b": ");
            with_cause(line, cause).with(b"\n")
        }
        Trouble::TooLong { input } => numbered(input).with(b" is too long\n"),
        Trouble::OutOfMemory => Line::empty().with(b"out of memory\n"),
    }
}

// The line that begins with the number of an input.
fn numbered(input: u16) -> Line
    ensures line { result ≡ codes "input " ++ decimal input }
    ensures short { length result ≤ 26 }
{
    Line::empty().with(b"input ").with_number(u64::from(input))
}

// The line with the words of a cause behind it.
fn with_cause(line: Line, cause: Cause) -> Line
    requires { length line ≤ 60 }
    ensures words { result ≡ line ++ cause_words cause }
    ensures short { length result ≤ 100 }
{
    match cause {
        Cause::Header => line.with(b"header"),
        Cause::Fields => line.with(b"fields"),
        Cause::Name { column } => line.with(b"name in column ").with_number(u64::from(column)),
        Cause::Repeated { earlier } => line.with(b"repeats row ").with_number(u64::from(earlier)),
        Cause::Number { column } => line
            .with(b"number in column ")
            .with_number(u64::from(column)),
        Cause::Meetings => line.with(b"meetings"),
        Cause::Parts => line.with(b"parts"),
        Cause::TooMany => line.with(b"too many rows"),
        Cause::NotJson => line.with(b"not json"),
        Cause::NotObject => line.with(b"not an object"),
        Cause::Missing(key) => with_key(line.with(b"missing "), key),
        Cause::Unknown => line.with(b"unknown key"),
        Cause::Range(key) => with_key(line.with(b"range of "), key),
    }
}

// The line with the name of a setting behind it.
fn with_key(line: Line, key: Key) -> Line
    requires { length line ≤ 70 }
    ensures words { result ≡ line ++ key_name key }
    ensures short { length result ≤ length line + 8 }
{
    line.with(key.name().as_bytes())
}
