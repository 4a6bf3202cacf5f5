// Lines and texts of a session, and the commands that they are.
use market_units::{Name, read_name};
use std::alloc::Global;
use std::process::Abort;
use std::test::Fail;
use utility_language::{Command, StreamEnd, print_command, read_line, read_stream};

// A line, and the printed command that it is, or `none`.
const LINES: &str = "\
rate ann A 1 => rate ann A 1
\t rate \t ann  B 2  => rate ann B 2
rate ann A 0 => rate ann A 0
rate ann A 100 => rate ann A 100
rate ann A -1 => rate ann A -1
rate ann A 999999 => rate ann A 999999
rate ann A -999999 => rate ann A -999999
rate a.b-c_D 9.Z 7 => rate a.b-c_D 9.Z 7
rate rate rate 5 => rate rate rate 5
rate 1 2 3 => rate 1 2 3
pair ann A B 10 => pair ann A B 10
pair ann B A -200 => pair ann B A -200
pair\tann\tA\tA\t999 => pair ann A A 999
clear ann => clear ann
  clear  ann   => clear ann
clear close => clear close
close => close
\tclose\t => close
 => none
  => none
 \t => none
# rate ann C 3 => none
 #rate ann C 3 => none
# => none
## => none
rate ann C 3 # => unreadable
close\r => unreadable
\r => unreadable
RATE ann A 1 => unreadable
rate ann A => unreadable
rate ann A 1 1 => unreadable
rate ann A 1000000 => unreadable
rate ann A -1000000 => unreadable
rate ann A -0 => unreadable
rate ann A 05 => unreadable
rate ann A -05 => unreadable
rate ann A --1 => unreadable
rate ann A - => unreadable
rate ann A 1.0 => unreadable
rate ann A +1 => unreadable
rate an!n A 1 => unreadable
pair ann A B => unreadable
clear => unreadable
clear ann bob => unreadable
close now => unreadable
unreadable => unreadable
rate\u{a0}ann A 1 => unreadable
";

// A text, and what its commands print as, each with a line feed; `|` is a line feed.
const TEXTS: &str = "\
|| => none
 => none
 \t |\t => none
\r => none
close => close|
close| => close|
close\r|clear ann\r| => close|clear ann|
close\r\r| => unreadable|
rate ann C 9\r => rate ann C 9|
# one||rate ann A 5|close| #|rate ann A 9|close => rate ann A 5|close|rate ann A 9|close|
x|close\rclose| => unreadable|unreadable|
\u{feff}close| => unreadable|
";

const NONE: &[u8] = b"none";

// What the line's command prints.
fn printed_line(alloc: Global, line: &[u8]) -> Result<Vec<u8>, Fail> {
    let Some(command) = read_line(line) else {
        return Ok(NONE.to_vec(alloc)?);
    };
    let mut room = [0; 128];
    let len = print_command(&command, &mut room);
    Ok(room[..len].to_vec(alloc)?)
}

// What the commands of a text print.
fn printed_text(alloc: Global, text: &[u8]) -> Result<Vec<u8>, Fail> {
    let mut room = [0; 128];
    let mut printed = Vec::new(alloc);
    for command in &read_stream(alloc, text, 4)? {
        let len = print_command(command, &mut room);
        printed.extend_from_slice(&room[..len])?;
        printed.push(b'\n')?;
    }
    if printed.is_empty() {
        printed.extend_from_slice(NONE)?;
    }
    Ok(printed)
}

fn try_line(rt: &impl Abort, alloc: Global, case: &str) -> Result<(), Fail> {
    let Some((line, wanted)) = case.split_once(" => ") else {
        return Err(Fail::from("a case without an answer"));
    };
    let printed = printed_line(alloc, line.as_bytes())?;
    assert_eq!(rt; printed.as_slice(), wanted.as_bytes(), "{line}");
    Ok(())
}

fn try_text(rt: &impl Abort, alloc: Global, case: &str) -> Result<(), Fail> {
    let lines = case.replace(alloc, "|", "\n")?;
    let Some((text, wanted)) = lines.as_str().split_once(" => ") else {
        return Err(Fail::from("a case without an answer"));
    };
    let printed = printed_text(alloc, text.as_bytes())?;
    assert_eq!(rt; printed.as_slice(), wanted.as_bytes(), "{text}");
    Ok(())
}

#[test]
fn lines_and_their_commands(rt: HostRuntime) -> Result<(), Fail> {
    for case in LINES.split_terminator('\n') {
        try_line(&rt, rt.alloc(), case)?;
    }
    // Bytes that are no text.
    let printed = printed_line(rt.alloc(), b"\xff\xfe\x00")?;
    assert_eq!(rt; printed.as_slice(), b"unreadable".as_slice());
    Ok(())
}

#[test]
fn texts_and_their_commands(rt: HostRuntime) -> Result<(), Fail> {
    for case in TEXTS.split_terminator('\n') {
        try_text(&rt, rt.alloc(), case)?;
    }
    Ok(())
}

fn name(rt: &impl Abort, text: &[u8]) -> Name {
    read_name(text).expect(rt, "a name")
}

#[test]
fn the_names_and_the_number_have_their_places(rt: HostRuntime) -> Result<(), Fail> {
    let student = name(&rt, b"ann");
    let first = name(&rt, b"A");
    let second = name(&rt, b"B");
    let section = first;
    let cases: [(&[u8], Command); 3] = [
        (
            b"rate ann A -4",
            Command::Rate {
                student,
                section,
                n: -4,
            },
        ),
        (
            b"pair ann A B 12",
            Command::Pair {
                student,
                first,
                second,
                n: 12,
            },
        ),
        (b"clear ann", Command::Clear { student }),
    ];
    for (line, command) in cases {
        assert!(rt; read_line(line) == Some(command));
    }
    Ok(())
}

// The commands that there is room for, the text, and whether it is read.
const ROOMS: [(u32, &[u8], bool); 4] = [
    (2, b"close\n\nx\n", true),
    (1, b"close\n\nx\n", false),
    (0, b"x", false),
    (0, b"#\n", true),
];

#[test]
fn one_command_more_than_there_is_room_for(rt: HostRuntime) {
    for (room, text, is_read) in ROOMS {
        let end = read_stream(rt.alloc(), text, room).err();
        let wanted = if is_read {
            None
        } else {
            Some(StreamEnd::TooMany)
        };
        assert_eq!(rt; end, wanted);
    }
}
