// A list of texts that were begun, in room that is reserved once.
ghost use Rattle.std.specs.Prelude.{◌≡◌, ◌<◌, ◌≤◌, Some, [], length, IfOk, vec_capacity};
ghost use Rattle.market_edge.specs.MemoryFiles.{earlier_of, listed_within};
ghost use Rattle.market_edge.specs.declared.begun_list.TheConstants.{ROOM};

use crate::memory_files::Place;
use market_units::NoMemory;
use std::alloc::Global;

// As many texts as are told.
const ROOM: usize = 128;

/// The files whose texts were begun, in order, each with whether it was read to its end. They are
/// told while there is room for them, and never again from then on.
#[derive(Drop)]
pub struct BegunList {
    texts: Vec<(usize, bool)>,
    count: usize,
    ghost reserved: { ROOM ≤ vec_capacity texts },
    ghost counted: { count ≤ ROOM → length texts.items ≡ count },
}

impl BegunList {
    ghost use Rattle.market_edge.specs.BegunLists.{told_texts};

    /// An empty list. Its room is reserved here.
    pub fn make(alloc: Global) -> Result<BegunList, NoMemory>
        ensures { IfOk result (λ list. told_texts list ≡ Some []) }
    {
        Ok(BegunList {
            texts: Vec::with_capacity(alloc, ROOM)?,
            count: 0,
        })
    }

    /// Puts the begun text behind the others, where there is one.
    pub fn put(&mut self, begun: Option<Place>, is_ended: bool)
        ensures { told_texts self.new
            ≡ listed_within ROOM (told_texts self.old) (earlier_of begun is_ended) }
    {
        let Some(place) = begun else {
            return;
        };
        self.count = self.count.saturating_add(1);
        if self.count <= ROOM {
            match self.texts.push((place.file, is_ended)) {
                Ok(()) => {}
                Err(_) => unreachable!(),
            }
        }
    }
}
