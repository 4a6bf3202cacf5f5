//! Tests of the stages: the search for prices, its neighbours, own prices, the elimination, seats
//! that are held, and the aftermarket; and that search and elimination ask both of two workers
//! where enough students are asked, which no clause says. There is nothing else here, so that what
//! they stand on is proved once.
#![tactic(auto)]

#[cfg(test)]
mod tests;
