// What no clause says: that the calls succeed with ample memory, and what the real adapters do.

use market_edge::{
    AnyGate, Failed, FileShelf, Gate, MemoryShelf, MemorySink, Passed, Shelf, Sink, SinkFault,
    StdoutSink, Stop, SureShelf, SureSink, Taking, read_whole, write_whole,
};
use std::alloc::Global;
use std::io::Write;
use std::process::Abort;
use std::sync::atomic::{AtomicU64, Ordering};
use std::test::Fail;
use std::{fs, io, process};

mod files;
mod meetings;
mod words;

// More than one read puts.
const LONG: u16 = 8193;

// A shelf with a long text, a second text of the same name, and an empty one.
fn shelf_of(rt: &impl Abort, alloc: Global, failing_call: u64) -> Result<MemoryShelf, Fail> {
    let mut files = Vec::new(alloc);
    files.push((
        String::from_str(alloc, "CAT")?,
        vec![in alloc; b'x'; usize::from(LONG)]?,
    ))?;
    files.push((String::from_str(alloc, "CAT")?, b"second".to_vec(alloc)?))?;
    files.push((String::from_str(alloc, "S1")?, Vec::new(alloc)))?;
    Ok(MemoryShelf::make(alloc, files, vec![in alloc; failing_call]?).expect(rt, "memory"))
}

#[test]
fn whole_texts_are_read(rt: HostRuntime) -> Result<(), Fail> {
    let alloc = rt.alloc();
    // A name, a limit, the call that fails, and what is read.
    let cases: [(&str, u16, u64, Result<u16, Taking>); 9] = [
        ("CAT", LONG, 0, Ok(LONG)),
        ("CAT", LONG - 1, 0, Err(Taking::TooLong)),
        ("S1", 0, 0, Ok(0)),
        ("Q", 10, 0, Err(Taking::ShelfFault)),
        ("CAT", LONG, 1, Err(Taking::ShelfFault)),
        ("CAT", LONG, 2, Err(Taking::ShelfFault)),
        ("CAT", LONG, 3, Err(Taking::ShelfFault)),
        ("CAT", LONG, 4, Err(Taking::ShelfFault)),
        ("CAT", LONG, 5, Ok(LONG)),
    ];
    for (name, limit, failing_call, want) in cases {
        let mut shelf = shelf_of(&rt, alloc, failing_call)?;
        match read_whole(alloc, &mut shelf, name, usize::from(limit)) {
            Ok(text) => {
                let want = want.map(usize::from);
                assert_eq!(rt; Ok(text.len()), want, "{name}, call {failing_call} fails");
                assert!(rt; text.iter().all(|&byte| byte == b'x'));
            }
            Err(taking) => {
                assert_eq!(rt; Err(taking), want, "{name}, call {failing_call} fails");
            }
        }
    }
    Ok(())
}

#[test]
fn a_sink_takes_what_fits(rt: HostRuntime) -> Result<(), Fail> {
    let alloc = rt.alloc();
    // Room for eight bytes, with the write that fails, and what is taken of two texts.
    let cases: [(u64, &str); 2] = [(0, "bundle a"), (2, "bundle")];
    for (failing_write, want) in cases {
        let mut sink = MemorySink::make(alloc, 8, vec![in alloc; failing_write]?).expect(
            &rt, "memory",
        );
        assert_eq!(rt; write_whole(&mut sink, b"bundle"), Ok(()));
        assert_eq!(rt; write_whole(&mut sink, b" ann"), Err(SinkFault));
        assert_eq!(rt; sink.taken(), want.as_bytes());
    }
    Ok(())
}

#[test]
fn a_sure_shelf_holds_every_name(rt: HostRuntime) -> Result<(), Fail> {
    let alloc = rt.alloc();
    let mut files = Vec::new(alloc);
    files.push((String::from_str(alloc, "CAT")?, b"first".to_vec(alloc)?))?;
    files.push((String::from_str(alloc, "CAT")?, b"second".to_vec(alloc)?))?;
    let mut shelf = SureShelf::make(files);
    // A name, a limit, and what is read.
    let cases: [(&str, usize, Result<&str, Taking>); 4] = [
        ("CAT", 5, Ok("first")),
        ("CAT", 4, Err(Taking::TooLong)),
        ("Q", 0, Ok("")),
        ("CAT", 5, Ok("first")),
    ];
    for (name, limit, want) in cases {
        match read_whole(alloc, &mut shelf, name, limit) {
            Ok(text) => {
                assert_eq!(rt; Ok(text.as_slice()), want.map(str::as_bytes), "{name}");
            }
            Err(taking) => {
                assert_eq!(rt; Err(taking), want, "{name}");
            }
        }
    }
    Ok(())
}

#[test]
fn a_sure_sink_tells_up_to_its_size(rt: HostRuntime) {
    // What is written to a sink that tells at most eight bytes, and what it tells then.
    let cases: [(&str, Option<&str>); 4] = [
        ("bundle", Some("bundle")),
        (" a", Some("bundle a")),
        ("n", None),
        ("n", None),
    ];
    let mut sink = SureSink::make(rt.alloc(), 8).expect(&rt, "memory");
    for (piece, want) in cases {
        assert_eq!(rt; sink.write(piece.as_bytes()), Ok(piece.len()));
        assert_eq!(rt; sink.taken(), want.map(str::as_bytes), "{piece}");
    }
}

#[test]
fn files_are_read(rt: HostRuntime) -> Result<(), Fail> {
    let alloc = rt.alloc();
    let path = format!(in alloc; "/tmp/course_match_shelf_{}", process::id(rt.process()))?;
    fs::write(&rt, path.as_str(), "section,course\n")?;
    let mut shelf = FileShelf::new(&rt);
    let text = read_whole(alloc, &mut shelf, path.as_str(), 15);
    let long = read_whole(alloc, &mut shelf, path.as_str(), 14);
    fs::remove_file(&rt, path.as_str())?;
    let missing = read_whole(alloc, &mut shelf, path.as_str(), 15);
    let folder = read_whole(alloc, &mut shelf, "/", 15);
    assert_eq!(rt;
        text.expect(&rt, "text").as_slice(),
        b"section,course\n".as_slice()
    );
    assert_eq!(rt; long.err(), Some(Taking::TooLong));
    assert_eq!(rt; missing.err(), Some(Taking::ShelfFault));
    assert_eq!(rt; folder.err(), Some(Taking::ShelfFault));
    Ok(())
}

// More than 64 KiB of a real file: each byte stands where it stood.
#[test]
fn a_long_file_is_read(rt: HostRuntime) -> Result<(), Fail> {
    let alloc = rt.alloc();
    let path = format!(in alloc; "/tmp/course_match_long_{}", process::id(rt.process()))?;
    let mut bytes = Vec::new(alloc);
    for at in 0..70_000_u32 {
        bytes.push((at % 251) as u8)?;
    }
    fs::write(&rt, path.as_str(), bytes.as_slice())?;
    let mut shelf = FileShelf::new(&rt);
    let text = read_whole(alloc, &mut shelf, path.as_str(), 70_000);
    let long = read_whole(alloc, &mut shelf, path.as_str(), 69_999);
    fs::remove_file(&rt, path.as_str())?;
    assert_eq!(rt; text.expect(&rt, "text").as_slice(), bytes.as_slice());
    assert_eq!(rt; long.err(), Some(Taking::TooLong));
    Ok(())
}

// A writer that takes one byte of each piece, then none, then fails, as a pipe that is closed.
#[derive(Drop)]
struct Pipe {
    open: usize,
    stuck: usize,
}

impl Write for Pipe {
    fn write(&mut self, piece: &[u8]) -> io::Result<usize> {
        if self.open > 0 && !piece.is_empty() {
            self.open -= 1;
            return Ok(1);
        }
        if self.stuck > 0 {
            self.stuck -= 1;
            return Ok(0);
        }
        Err(io::Error::from(io::ErrorKind::BrokenPipe))
    }

    fn flush(&mut self) -> io::Result<()> {
        Ok(())
    }
}

#[test]
fn a_closed_pipe_is_a_fault(rt: HostRuntime) {
    let mut sink = StdoutSink::new(Pipe { open: 4, stuck: 1 });
    assert_eq!(rt; sink.write(b"ab"), Ok(1));
    assert_eq!(rt; write_whole(&mut sink, b"abc"), Ok(()));
    assert_eq!(rt; sink.write(b"takes none"), Err(Failed));
    assert_eq!(rt; write_whole(&mut sink, b"fails"), Err(SinkFault));
}

// A writer that takes two bytes of each piece and whose call of one number fails. It counts its
// calls, and the bytes that it took.
#[derive(Drop)]
struct Failing<'a> {
    failing_call: u64,
    calls: &'a AtomicU64,
    taken: &'a AtomicU64,
}

impl Write for Failing<'_> {
    fn write(&mut self, piece: &[u8]) -> io::Result<usize> {
        if self.calls.fetch_add(1, Ordering::SeqCst) == self.failing_call {
            return Err(io::Error::from(io::ErrorKind::BrokenPipe));
        }
        let count = piece.len().min(2);
        self.taken.fetch_add(count as u64, Ordering::SeqCst);
        Ok(count)
    }

    fn flush(&mut self) -> io::Result<()> {
        Ok(())
    }
}

// A failed write of the writer is a failure at once: it is not tried again, and nothing is written
// behind it.
#[test]
fn a_failed_write_is_not_tried_again(rt: HostRuntime) {
    // The call that fails, counted from 0; the answer; how many calls are made, and how many bytes
    // are taken.
    let cases: [(u64, Result<(), SinkFault>, u64, u64); 4] = [
        (0, Err(SinkFault), 1, 0),
        (1, Err(SinkFault), 2, 2),
        (2, Err(SinkFault), 3, 4),
        (3, Ok(()), 3, 5),
    ];
    for (failing_call, want, calls, taken) in cases {
        let made = AtomicU64::new(0);
        let had = AtomicU64::new(0);
        let mut sink = StdoutSink::new(Failing {
            failing_call,
            calls: &made,
            taken: &had,
        });
        assert_eq!(rt; write_whole(&mut sink, b"abcde"), want);
        assert_eq!(rt;
            made.load(Ordering::SeqCst),
            calls,
            "call {failing_call} fails"
        );
        assert_eq!(rt;
            had.load(Ordering::SeqCst),
            taken,
            "call {failing_call} fails"
        );
    }
}

// A gate that counts its passes.
#[derive(Drop)]
struct CountingGate {
    passes: AtomicU64,
}

impl Gate for CountingGate {
    fn pass(&self, _stop: Stop) {
        self.passes.fetch_add(1, Ordering::SeqCst);
    }
}

// A gate that is passed on is passed itself.
#[test]
fn a_gate_that_is_passed_on_is_passed(rt: HostRuntime) {
    let counting = CountingGate {
        passes: AtomicU64::new(0),
    };
    let any: AnyGate<'_> = &counting;
    let passed = Passed { gate: any };
    passed.pass(Stop::SessionStart(1));
    passed.pass(Stop::WorkerCall(2));
    assert_eq!(rt; counting.passes.load(Ordering::SeqCst), 2);
}
