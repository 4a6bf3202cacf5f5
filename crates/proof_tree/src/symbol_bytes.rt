// The bytes of a symbol.
ghost use Rattle.std.specs.Prelude.{◌≤◌};

/// The symbol of a sign, as its one to three bytes.
#[derive(Clone, Copy)]
pub(crate) struct Symbol {
    bytes: [u8; 3],
    len: usize,
    ghost short: { len ≤ 3 },
}

impl Symbol {
    ghost use Rattle.std.specs.Prelude.{◌≡◌, ◌<◌, ◌∷◌, []};
    ghost use Rattle.std.specs.Fmt.{decimal};
    ghost use Rattle.proof_tree.specs.Spellings.{bytes_of};

    /// The bytes of the symbol, 1 to 3.
    pub(crate) fn as_slice(&self) -> &[u8]
        ensures { result.now ≡ bytes_of self.now }
    {
        &self.bytes[..self.len]
    }

    /// A byte alone.
    pub(crate) fn single(byte: u8) -> Symbol
        ensures { bytes_of result ≡ byte ∷ [] }
    {
        Symbol {
            bytes: [byte, 0, 0],
            len: 1,
        }
    }

    /// A letter with a number of one or two digits.
    pub(crate) fn numbered(letter: u8, place: u8) -> Symbol
        requires { place < 100 }
        ensures { bytes_of result ≡ letter ∷ decimal place }
    {
        if place < 10 {
            return Symbol {
                bytes: [letter, b'0' + place, 0],
                len: 2,
            };
        }
        Symbol {
            bytes: [letter, b'0' + place / 10, b'0' + place % 10],
            len: 3,
        }
    }
}
