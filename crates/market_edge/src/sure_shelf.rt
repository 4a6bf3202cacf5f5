// A shelf in memory that never fails.
ghost use Rattle.std.specs.Prelude.{◌≡◌, Some, List, ℕ, false, Ok, IsOk};
ghost use Rattle.std.specs.Option.{ForSome};
ghost use Rattle.market_edge.specs.MemoryFiles.{IsPlace, has_place_of};
ghost use Rattle.market_edge.specs.Shelves.{IsBegin, IsRead, MayRead};
ghost use Rattle.market_edge.specs.SureFiles.{place_of_begun, sure_holding};

use crate::memory_files::{Place, find, put_rest};
use crate::{Failed, Shelf};

/// The text that is begun.
#[derive(Clone, Copy, Debug)]
enum Begun {
    /// None is.
    Nothing,
    /// A file's, of which so many bytes were taken.
    File(Place),
    /// The empty text that each name without a file stands for.
    Empty,
}

/// A shelf of files in memory that never fails: a name that is no file's stands for the empty text.
/// Of two files of one name the first counts.
#[derive(Drop)]
pub struct SureShelf {
    files: Vec<(String, Vec<u8>)>,
    begun: Begun,
    ghost placed: { ForSome (place_of_begun begun) (IsPlace files.items) },
}

impl SureShelf {
    ghost use Rattle.market_edge.specs.SureShelves.{shown_by};

    /// A shelf of these files, with nothing begun.
    pub fn make(files: Vec<(String, Vec<u8>)>) -> SureShelf
        ensures holds { (shown_by result).holds ≡ Some (sure_holding files.items) }
        ensures begun { (shown_by result).is_begun ≡ false }
    {
        SureShelf {
            files,
            begun: Begun::Nothing,
        }
    }
}

impl Shelf for SureShelf {
    ghost use Rattle.market_edge.specs.SureShelves.{files_of, shown_by};

    ghost shows = { shown_by };

    fn begin(&mut self, name: &str) -> Result<(), Failed>
        ensures begins { IsBegin (shown_by self.old) (shown_by self.new) name.now result }

        // It never fails, and serves the name of the begun text alone.
        ensures sure { result ≡ Ok tt }
        ensures alone { (other : List ℕ)
            → (shown_by self.new).serves other ≡ has_place_of (files_of self.old) name.now other }
        ensures files { files_of self.new ≡ files_of self.old }
    {
        let Some(file) = find(&self.files, name) else {
            self.begun = Begun::Empty;
            return Ok(());
        };
        self.begun = Begun::File(Place { file, at: 0 });
        Ok(())
    }

    fn read(&mut self, room: &mut [u8]) -> Result<usize, Failed>
        requires { MayRead (shown_by self.old) room.old }
        ensures reads { IsRead (shown_by self.old) (shown_by self.new) room.new result }

        // It never fails.
        ensures sure { IsOk result }
        ensures files { files_of self.new ≡ files_of self.old }
    {
        let Begun::File(place) = self.begun else {
            return Ok(0);
        };
        let count = put_rest(&self.files[place.file].1, place.at, room);
        self.begun = Begun::File(Place {
            file: place.file,
            at: place.at + count,
        });
        Ok(count)
    }
}
