// Names of sections, courses and students.
ghost use Rattle.std.specs.Prelude.{◌≡◌, nat_eq};
ghost use Rattle.std.proofs.Common.{rules};
ghost use Rattle.std.specs.Cmp.{on_equiv, partial_equiv_from_equiv};
ghost use Rattle.std.specs.Ordering.{on};
ghost use Rattle.std.specs.Cmp.Lexicographic.{nat_list_eq_equiv, pointwise};
ghost use Rattle.std.specs.Cmp.Rules.{hashing};
ghost use Rattle.std.specs.Hash as fed;
ghost use Rattle.market_units.specs.Names.{IsName, HoldsName};

use crate::MAX_NAME;
use std::hash::{Hash, Hasher};

/// A name: 1 to 32 letters, digits, dashes, underscores and dots. Contracts see it as its bytes.
#[derive(Clone, Copy, Debug)]
pub struct Name {
    // Ghost fields and no model: commands hold names and are passed by value more than once, and a
    // type with a model is `Copy` only with a law that its value gives the fields back.
    room: [u8; MAX_NAME],
    len: u8,
    // What stands past the name is zeros, so that equal bytes make equal names.
    ghost holds: { HoldsName room len },
}

impl Name {
    ghost use Rattle.market_units.specs.Name.{name_bytes};

    /// The bytes of the name.
    pub fn bytes(&self) -> &[u8]
        ensures value { result.now ≡ name_bytes self.now }
        ensures name { IsName (name_bytes self.now) }
    {
        &self.room[..usize::from(self.len)]
    }

    /// The name of these bytes, which are a name.
    pub(crate) fn holding(bytes: &[u8]) -> Name
        requires { IsName bytes.now }
        ensures { name_bytes result ≡ bytes.now }
    {
        let mut room = [0; MAX_NAME];
        room[..bytes.len()].copy_from_slice(bytes);
        Name {
            room,
            len: bytes.len() as u8,
        }
    }
}

impl PartialEq for Name {
    ghost use Rattle.market_units.specs.Name.{name_bytes};

    ghost eq = { on name_bytes (pointwise nat_eq) };

    ghost laws = { partial_equiv_from_equiv (on_equiv name_bytes nat_list_eq_equiv) };

    fn eq(&self, other: &Name) -> bool {
        self.bytes() == other.bytes()
    }
}

impl Eq for Name {
    ghost use Rattle.market_units.specs.Name.{name_bytes};

    ghost laws = { on_equiv name_bytes nat_list_eq_equiv };
}

impl Hash for Name {
    ghost use Rattle.market_units.specs.Name.{name_bytes};

    ghost hash_input = { λ name. fed.slice fed.u8 (name_bytes name) };

    ghost respects_eq = { Prim.search (hashing, rules) };

    fn hash<H: Hasher>(&self, state: &mut H) {
        self.bytes().hash(state);
    }
}
