// A shelf of files whose system fails at a call.
ghost use Rattle.std.specs.Prelude.{IsErr};

use market_edge::{FileShelf, Shelf, Taking, read_whole};
use std::alloc::Global;
use std::fs::{Files, Metadata, OpenFile, OpenOptions};
use std::io;
use std::io::{Read, Seek, SeekFrom, Write};
use std::sync::Arc;
use std::sync::atomic::{AtomicU64, Ordering};
use std::test::Fail;

fn failure<T>() -> io::Result<T>
    ensures { IsErr result }
{
    Err(io::Error::from(io::ErrorKind::Other))
}

// Files of five bytes each, read two at a time: one of each name, or one alone. Opens and reads
// together are numbered from 1, and the call of one number fails.
#[derive(Drop)]
struct Failing {
    name: Option<&'static str>,
    failing_call: u64,
    calls: Arc<AtomicU64>,
}

#[derive(Drop)]
struct Five {
    failing_call: u64,
    calls: Arc<AtomicU64>,
    left: usize,
}

// Counts a call, and says whether it fails.
fn fails(calls: &AtomicU64, failing_call: u64) -> bool {
    calls.fetch_add(1, Ordering::SeqCst).wrapping_add(1) == failing_call
}

impl Read for Five {
    fn read(&mut self, room: &mut [u8]) -> io::Result<usize> {
        if fails(&self.calls, self.failing_call) {
            return failure();
        }
        let count = room.len().min(2).min(self.left);
        room[..count].fill(b'x');
        self.left -= count;
        Ok(count)
    }
}

impl Write for Five {
    fn write(&mut self, _piece: &[u8]) -> io::Result<usize> {
        failure()
    }

    fn flush(&mut self) -> io::Result<()> {
        failure()
    }
}

impl Seek for Five {
    fn seek(&mut self, _to: SeekFrom) -> io::Result<u64> {
        failure()
    }
}

impl OpenFile for Five {
    fn metadata(&self) -> io::Result<Metadata> {
        failure()
    }

    fn set_len(&self, _size: u64) -> io::Result<()> {
        failure()
    }

    fn sync_all(&self) -> io::Result<()> {
        failure()
    }

    fn sync_data(&self) -> io::Result<()> {
        failure()
    }
}

impl Files for Failing {
    type File = Five;

    type Dir = Five;

    fn open_file(&self, _how: &OpenOptions, path: &str) -> io::Result<Five> {
        let is_named = match self.name {
            Some(name) => name == path,
            None => true,
        };
        if !is_named {
            return failure();
        }
        if fails(&self.calls, self.failing_call) {
            return failure();
        }
        Ok(Five {
            failing_call: self.failing_call,
            calls: self.calls.clone()?,
            left: 5,
        })
    }

    fn open_dir(&self, _path: &str) -> io::Result<Five> {
        failure()
    }

    fn metadata(&self, _path: &str) -> io::Result<Metadata> {
        failure()
    }

    fn symlink_metadata(&self, _path: &str) -> io::Result<Metadata> {
        failure()
    }

    fn copy(&self, _from: &str, _to: &str) -> io::Result<u64> {
        failure()
    }

    fn rename(&self, _from: &str, _to: &str) -> io::Result<()> {
        failure()
    }

    fn remove_file(&self, _path: &str) -> io::Result<()> {
        failure()
    }

    fn create_dir(&self, _path: &str) -> io::Result<()> {
        failure()
    }

    fn remove_dir(&self, _path: &str) -> io::Result<()> {
        failure()
    }

    fn remove_dir_all<B: std::alloc::Allocator>(&self, _alloc: B, _path: &str) -> io::Result<()> {
        failure()
    }
}

// A failed open or read of the system is a failure at once: neither is tried again.
#[test]
fn a_failed_read_is_not_tried_again(rt: HostRuntime) -> Result<(), Fail> {
    // The call that fails, the answer, and how many calls are made.
    let cases: [(u64, Result<usize, Taking>, u64); 6] = [
        (1, Err(Taking::ShelfFault), 1),
        (2, Err(Taking::ShelfFault), 2),
        (3, Err(Taking::ShelfFault), 3),
        (4, Err(Taking::ShelfFault), 4),
        (5, Err(Taking::ShelfFault), 5),
        (6, Ok(5), 5),
    ];
    for (failing_call, want, calls) in cases {
        let made = Arc::new(rt.alloc(), AtomicU64::new(0))?;
        let files = Failing {
            name: None,
            failing_call,
            calls: made.clone()?,
        };
        let mut shelf = FileShelf::new(&files);
        let length = match read_whole(rt.alloc(), &mut shelf, "CAT", 5) {
            Ok(text) => Ok(text.len()),
            Err(taking) => Err(taking),
        };
        assert_eq!(rt; length, want, "call {failing_call} fails");
        assert_eq!(rt;
            made.load(Ordering::SeqCst),
            calls,
            "call {failing_call} fails"
        );
    }
    Ok(())
}

// Whether a shelf over a system that has one file, of this name, opens what is asked for.
fn is_opened(alloc: Global, name: &'static str, asked: &str) -> Result<bool, Fail> {
    let files = Failing {
        name: Some(name),
        failing_call: 0,
        calls: Arc::new(alloc, AtomicU64::new(0))?,
    };
    let mut shelf = FileShelf::new(&files);
    Ok(shelf.begin(asked).is_ok())
}

// The file of exactly the given name is opened, and no other.
#[test]
fn the_named_file_is_opened(rt: HostRuntime) -> Result<(), Fail> {
    let names = [
        "CAT",
        " CAT",
        "CAT ",
        "CAT\n",
        "./CAT",
        "../CAT",
        "a/../CAT",
        "cat",
        "C\u{c4}T",
        "CA\u{308}T",
        "-CAT",
        "",
    ];
    for name in names {
        for other in names {
            assert_eq!(rt; is_opened(rt.alloc(), name, other)?, other == name);
        }
    }
    Ok(())
}
