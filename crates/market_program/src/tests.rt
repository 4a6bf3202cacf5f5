// The program over texts in memory. The cases named for what they show are worked examples that
// were computed apart from this program.
use market_edge::{Gate, MemoryShelf, MemorySink, MemoryWords, NoWords, OpenGate};
use market_host::{Cause, Finding, Status, answered, course_match, exit_code, no_memory_for_words};
use std::alloc::Global;
use std::process::{Abort, ExitCode};
use std::sync::Wait;
use std::test::Fail;
use std::thread::Threads;

mod audit;
mod cases;
mod changes;
mod check;
mod cuts;
mod demand;
mod every_fault;
mod explain;
mod gates;
mod hall;
mod limits;
mod made_gates;
mod make;
mod order;
mod prefer;
mod quote;
mod runs;
mod shelf;
mod sure;
mod words;
mod workers;

use cases::{assert_told, try_cases, try_run};

const USAGE: &str = "usage: run, check, prefer, demand, quote, make, explain, hall, audit\n";

// Room for each text that is written.
const ROOM: usize = 30_000;

// A file's name and its bytes.
type File<'a> = (&'a str, &'a [u8]);

// A file that stands on a shelf.
type Held = (String, Vec<u8>);

// A status, and what was written.
type Answer = (Status, String);

fn words_of(alloc: Global, line: &str) -> Result<Vec<String>, Fail> {
    let mut words = Vec::new(alloc);
    for word in line.split(' ') {
        words.push(String::from_str(alloc, word)?)?;
    }
    Ok(words)
}

fn held_of(alloc: Global, name: &str, bytes: &[u8]) -> Result<Held, Fail> {
    let name = String::from_str(alloc, name)?;
    Ok((name, bytes.to_vec(alloc)?))
}

// The texts of the shelf that the command names.
fn named_files(alloc: Global, line: &str) -> Result<Vec<Held>, Fail> {
    let mut held = Vec::new(alloc);
    for word in line.split(' ') {
        if let Some(bytes) = shelf::text_named(word) {
            held.push(held_of(alloc, word, bytes)?)?;
        }
    }
    Ok(held)
}

// These files, beside those of the shelf that the command names.
fn all_files(alloc: Global, line: &str, files: &[File]) -> Result<Vec<Held>, Fail> {
    let mut held = named_files(alloc, line)?;
    for (name, bytes) in files {
        held.push(held_of(alloc, name, bytes)?)?;
    }
    Ok(held)
}

// The status of a command over such files, and what it wrote.
fn run<R: Threads + Wait + Sync + Abort>(
    rt: &R,
    alloc: Global,
    line: &str,
    files: &[File],
) -> Result<Answer, Fail> {
    let held = all_files(alloc, line, files)?;
    run_held(rt, alloc, line, held, (0, 0), ROOM, &OpenGate)
}

// The same over the shelf alone, where its call and the sink's write of these numbers fail, 0 being
// none, the sink has so much room, and the sessions and workers pass this gate.
fn run_by<R: Threads + Wait + Sync + Abort>(
    rt: &R,
    alloc: Global,
    line: &str,
    failing: (u64, u64),
    room: usize,
    gate: &(dyn Gate + Sync),
) -> Result<Answer, Fail> {
    let held = named_files(alloc, line)?;
    run_held(rt, alloc, line, held, failing, room, gate)
}

fn run_held<R: Threads + Wait + Sync + Abort>(
    rt: &R,
    alloc: Global,
    line: &str,
    held: Vec<Held>,
    failing: (u64, u64),
    room: usize,
    gate: &(dyn Gate + Sync),
) -> Result<Answer, Fail> {
    let mut shelf = MemoryShelf::make(alloc, held, vec![in alloc; failing.0]?).expect(rt, "room");
    let mut sink = MemorySink::make(alloc, room, vec![in alloc; failing.1]?).expect(rt, "room");
    let words = words_of(alloc, line)?;
    let status = course_match(rt, alloc, &words, &mut shelf, &mut sink, gate);
    let written = String::from_utf8(sink.taken().to_vec(alloc)?).expect(rt, "text");
    Ok((status, written))
}

// Each status has its number.
#[test]
fn each_status_has_its_number(rt: HostRuntime) {
    let refused = Status::Refused {
        input: 2,
        row: 3,
        cause: Cause::Header,
    };
    let found = Status::Found {
        finding: Finding::NotQuiet { turns: 0 },
    };
    let cases: [(Status, u8); 10] = [
        (Status::Done, 0),
        (Status::Usage, 1),
        (Status::ShelfFault { input: 1 }, 2),
        (refused, 3),
        (Status::TooLong { input: 4 }, 4),
        (Status::NoPrices { least: 9 }, 5),
        (Status::SinkFault, 6),
        (Status::OutOfMemory, 7),
        (found, 8),
        (Status::Unknown { word: 6 }, 9),
    ];
    for (status, number) in cases {
        assert_eq!(rt; status.number(), number, "{status:?}");
    }
}

// The words behind the program's name, the number with which the process ends, and what is written.
const ENDS: [(&[u8], u8, &str); 6] = [
    (b"quote TWO TIE ann 10 1", 0, "bundle ann [A]\nutility 50\n"),
    (b"quote TWO NONE ann 10 1", 2, "input 2 can not be read\n"),
    (b"make 2 7 40 15 0", 5, "no prices: least error 3\n"),
    (b"", 1, USAGE),
    (b"quote TWO TIE ann 10 \xff", 1, USAGE),
    (b"quote TWO TIE ann 10 1 \xff", 1, USAGE),
];

// The process ends with the number of the status: for words behind the program's name, for none,
// and where one of them is not UTF-8.
#[test]
fn the_process_ends_with_the_number(rt: HostRuntime) -> Result<(), Fail> {
    for (line, number, text) in ENDS {
        let words = MemoryWords::make(bytes_of_words(rt.alloc(), line)?);
        let held = named_files(rt.alloc(), "TWO TIE")?;
        let mut shelf = MemoryShelf::make(rt.alloc(), held, Vec::new(rt.alloc())).expect(
            &rt, "room",
        );
        let mut sink = MemorySink::make(rt.alloc(), 100, Vec::new(rt.alloc())).expect(&rt, "room");
        let code = exit_code(&rt, rt.alloc(), &words, &mut shelf, &mut sink, &OpenGate);
        assert_eq!(rt; code, ExitCode::from(number), "{text}");
        assert_eq!(rt; sink.taken(), text.as_bytes());
    }
    Ok(())
}

// The words of a line, where there are any, as bytes.
fn bytes_of_words(alloc: Global, line: &[u8]) -> Result<Vec<Vec<u8>>, Fail> {
    let mut words = Vec::new(alloc);
    if line.is_empty() {
        return Ok(words);
    }
    for word in line.split(|byte| *byte == b' ') {
        words.push(word.to_vec(alloc)?)?;
    }
    Ok(words)
}

const NO_FORMS: &str = "\
== words that are no form
quote TWO TIE ann 010 1
quote TWO TIE ann 10 9
quote TWO TIE
prefer TWO ANN
demand 0 TWO ANN SET PRICES TIE
demand 17 TWO ANN SET PRICES TIE
demand 02 TWO ANN SET PRICES TIE
demand 2 TWO ANN SET PRICES
run 0 TWO ANN SET TIE
run 2 TWO ANN SET
make 2 7 0 2 0
make 2 7 2 2 1000000000001
explain TWO ANN SET TEXT ann A
explain TWO ANN SET TEXT ann B/C TIE
hall TWO ANN TEXT
audit 0 TWO ANN SET TEXT TIE
audit 17 TWO ANN SET TEXT TIE
audit 2 TWO ANN SET TEXT
=> 1
usage: run, check, prefer, demand, quote, make, explain, hall, audit
";

#[test]
fn no_form(rt: HostRuntime) -> Result<(), Fail> {
    try_cases(&rt, rt.alloc(), NO_FORMS)
}

// Words for which there is no memory.
#[test]
fn no_memory_for_the_words(rt: HostRuntime) -> Result<(), Fail> {
    let held = named_files(rt.alloc(), "TWO TIE")?;
    let mut shelf = MemoryShelf::make(rt.alloc(), held, Vec::new(rt.alloc())).expect(&rt, "room");
    let mut sink = MemorySink::make(rt.alloc(), 14, Vec::new(rt.alloc())).expect(&rt, "room");
    let none = Err(NoWords::NoMemory);
    let status = answered(&rt, rt.alloc(), none, &mut shelf, &mut sink, &OpenGate);
    assert_eq!(rt; status, Status::OutOfMemory);
    assert_eq!(rt; sink.taken(), b"out of memory\n".as_slice());
    assert_eq!(rt; no_memory_for_words(&mut sink), Status::SinkFault);
    Ok(())
}
