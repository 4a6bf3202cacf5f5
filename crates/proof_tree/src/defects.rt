// What is wrong with a text that is not a canonical tree.

/// The first place at which a text is not the canonical tree of a champion, by the offset of a
/// byte, which is told as 4,294,967,295 where it is greater.
#[derive(Clone, Copy, Debug, PartialEq, Eq)]
pub enum TreeDefect {
    /// No symbol stands there.
    Syntax(u32),
    /// No bound prunes the node: a leaf stands there and the canonical symbol is no leaf, or all
    /// places are decided, and the chosen sections are not the champion.
    NotClosed(u32),
    /// A bound prunes the node, and no leaf stands there.
    Redundant(u32),
    /// Another leaf stands there.
    WrongLeaf(u32),
    /// Another symbol of `*`, `+`, `-` stands there.
    WrongBranch(u32),
    /// The tree is whole, and bytes are left.
    Rest(u32),
}

impl TreeDefect {
    ghost use Rattle.std.specs.Prelude.{◌≡◌};
    ghost use Rattle.proof_tree.specs.Mismatches.{offset_in};

    /// The offset, in bytes, at which the defect is.
    pub fn offset(&self) -> u32
        ensures { result ≡ offset_in self.now }
    {
        match self {
            TreeDefect::Syntax(at)
            | TreeDefect::NotClosed(at)
            | TreeDefect::Redundant(at)
            | TreeDefect::WrongLeaf(at)
            | TreeDefect::WrongBranch(at)
            | TreeDefect::Rest(at) => *at,
        }
    }
}
