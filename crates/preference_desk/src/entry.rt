use crate::Reply;
use utility_language::Command;

/// One entry of the journal.
#[derive(Clone, Copy, Debug, PartialEq, Eq)]
pub struct Entry {
    /// The session that posted the command, numbered from 1.
    pub session: u16,
    pub command: Command,
    pub reply: Reply,
}
