// Real files. What they hold is not told: this is the trusted edge.
ghost use Rattle.std.specs.Prelude.{◌≡◌, None, List, ℕ, false, is_some, OnErr};
ghost use Rattle.std.specs.Io.KnownBytes.{ReadConsumes};
ghost use Rattle.market_units.specs.Counts.{one_more};
ghost use Rattle.market_edge.specs.Shelves.{IsBegin, IsRead, MayRead};

use crate::{Failed, Shelf};
use std::fs;
use std::io::Read;
use std::rt::Files;

/// The files of the system, by path. Each failure is counted for every name; while a file is open,
/// every name is served.
#[derive(Drop)]
pub struct FileShelf<'r, R: Files> {
    rt: &'r R,
    file: Option<R::File>,
    faults: u64,
}

impl<'r, R: Files> FileShelf<'r, R> {
    /// A shelf with no file open.
    pub fn new(rt: &'r R) -> Self
        ensures none { (⟦<FileShelf<'r, R> as Shelf>⟧.shows result).is_begun ≡ false }
        ensures faults { (name : List ℕ)
            → (⟦<FileShelf<'r, R> as Shelf>⟧.shows result).faults name ≡ 0 }
    {
        FileShelf {
            rt,
            file: None,
            faults: 0,
        }
    }
}

impl<'r, R: Files> Shelf for FileShelf<'r, R> {
    ghost use Rattle.market_edge.specs.FileShelves.{file_of, known_rest};

    ghost shows = { λ shelf. record {
      holds = None;
      left = None;
      is_begun = is_some shelf.file;
      serves = λ _. is_some shelf.file;
      openings = None;
      faults = λ _. shelf.faults;
    } };

    fn begin(&mut self, name: &str) -> Result<(), Failed>
        ensures begins { IsBegin (⟦<FileShelf<'r, R> as Shelf>⟧.shows self.old)
            (⟦<FileShelf<'r, R> as Shelf>⟧.shows self.new) name.now result }

        // Each failure is counted for every name.
        ensures counted { OnErr result
            ((other : List ℕ)
            → (⟦<FileShelf<'r, R> as Shelf>⟧.shows self.new).faults other
            ≡ one_more ((⟦<FileShelf<'r, R> as Shelf>⟧.shows self.old).faults other)) }
    {
        self.file = None;
        match fs::open(self.rt, name) {
            Ok(file) => {
                self.file = Some(file);
                Ok(())
            }
            Err(_) => {
                self.faults = self.faults.saturating_add(1);
                Err(Failed)
            }
        }
    }

    fn read(&mut self, room: &mut [u8]) -> Result<usize, Failed>
        requires { MayRead (⟦<FileShelf<'r, R> as Shelf>⟧.shows self.old) room.old }
        ensures reads { IsRead (⟦<FileShelf<'r, R> as Shelf>⟧.shows self.old)
            (⟦<FileShelf<'r, R> as Shelf>⟧.shows self.new) room.new result }

        // The room is passed on to the open file once: what was read of the file is what is
        // answered, and after a failed call nothing.
        ensures passed { ReadConsumes (known_rest R.File.remaining (file_of self.old))
            (known_rest R.File.remaining (file_of self.new)) result room.new }

        // Each failure is counted for every name.
        ensures counted { OnErr result
            ((other : List ℕ)
            → (⟦<FileShelf<'r, R> as Shelf>⟧.shows self.new).faults other
            ≡ one_more ((⟦<FileShelf<'r, R> as Shelf>⟧.shows self.old).faults other)) }
    {
        let Some(file) = &mut self.file else {
            unreachable!()
        };
        match file.read(room) {
            Ok(count) => Ok(count),
            Err(_) => {
                self.faults = self.faults.saturating_add(1);
                Err(Failed)
            }
        }
    }
}
