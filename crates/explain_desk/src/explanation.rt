// What a student is told of a section.
use crate::Reason;
use bundle_rules::Bundle;

/// The best bundle with a section, with the forced tree that proves it. The `Proved` of
/// `market_certificate` has a canonical tree, of two symbols fewer.
#[derive(Drop)]
pub struct Proved {
    /// The bundle.
    pub bundle: Bundle,
    /// Its tree, as bytes.
    pub tree: Vec<u8>,
}

/// Why a student does not have a section, and what it would have to take to have it.
#[derive(Drop)]
pub struct Explained {
    /// The first reason that applies.
    pub reason: Reason,
    /// The best bundle with the section, where the reason is a clash, a limit beside the bundle, or
    /// less utility.
    pub best: Option<Proved>,
}
