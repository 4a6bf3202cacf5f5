// The files of a shelf in memory, and a place in the text of one.
ghost use Rattle.std.specs.Prelude.{◌≡◌, ◌<◌, ◌≤◌, ◌+◌, ◌++◌, length, take, drop};
ghost use Rattle.market_edge.specs.MemoryFiles.{place_of};

/// A place in a file's text: so many bytes of it were taken.
#[derive(Clone, Copy, Debug)]
pub struct Place {
    pub file: usize,
    pub at: usize,
}

/// The first file of a name.
pub fn find(files: &[(String, Vec<u8>)], name: &str) -> Option<usize>
    ensures { result ≡ place_of files.now name.now }
{
    files.iter().position(|file| file.0.as_str() == name)
}

/// Puts the bytes from a place on at the front of the room, as many as fit.
pub fn put_rest(text: &[u8], at: usize, room: &mut [u8]) -> usize
    requires { at ≤ length text.now }
    ensures bound { result ≤ length room.new }
    ensures within { at + result ≤ length text.now }
    ensures bytes { drop at text.now ≡ take result room.new ++ drop (at + result) text.now }
    ensures end { result ≡ 0 → 0 < length room.new → at ≡ length text.now }
{
    let rest = &text[at..];
    let count = rest.len().min(room.len());
    room[..count].copy_from_slice(&rest[..count]);
    count
}
