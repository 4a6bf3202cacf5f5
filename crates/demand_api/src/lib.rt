//! What a crowd of students demands at given prices, and who can be asked for it.
// Neither: that `asked` and `inquiries` are what was asked (each is what the implementor says it
// is; by how much `counts`, `bundles` and `exceeds` of `PlainDemands` raise them is proved, and of
// its `foresee` and `least_prices` a bound); how long it takes.
#![tactic(auto)]

mod asking;
mod counting;
mod crowd;
pub mod laws;
mod plain;
mod plain_demands;

pub use asking::Demands;
pub use counting::{count_bundle, count_bundles, exchange_bundle, uncount_bundle};
pub use crowd::Crowd;
pub use plain_demands::PlainDemands;
