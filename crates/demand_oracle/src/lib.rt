//! The bundle that a student wants at given prices, of all bundles or of those with a given
//! section, and the best few in order, by branch and bound in the search order that its menu keeps:
//! what can at most still be reached from a node is looked up in a table that is made once a demand.
// Neither: a bound on the number of nodes, what `opened` counts, how many bundles `best_few` finds
// beyond the first, and where `first_within` finds none. That `prunes` and
// `falls_short` are true often: a table that says everywhere that enough can be reached would keep
// every clause.
#![tactic(auto)]

mod asked;
mod below;
mod best;
mod closing;
mod draft;
mod gain;
mod goods;
mod keeping;
pub mod laws;
mod leaders;
mod leading;
mod multipliers;
mod names;
mod oracle;
mod places;
mod question;
mod reach;
mod renaming;
mod spot;
mod step;
mod summed_node;
mod tables;
mod unit;

pub use best::{Best, MOST_KEPT};
pub use oracle::{Workspace, best_few, demand, demand_beside, demand_from, demand_with};

#[cfg(test)]
mod tests;
