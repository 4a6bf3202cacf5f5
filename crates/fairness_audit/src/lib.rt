//! Envy between students: what each sees in the bundles of the others, and whom it envies; the
//! audit of an accepted text; and the law that in the second stage nobody envies one whose budget
//! is no greater.
// Neither: how long it takes.
#![tactic(auto)]

mod allocation;
mod auditing;
mod counting;
mod counts;
pub mod laws;
mod lines;
mod published;
mod row;
mod sight;
mod tasks;
mod terms;
mod text;
mod weights;
mod worker;

pub use allocation::is_allocation;
pub use auditing::audit;
pub use counting::count_envy;
pub use published::published_audit;
pub use row::{EnvyRow, Seen};
pub use tasks::AuditTasks;
pub use terms::Terms;
pub use text::put_rows;
