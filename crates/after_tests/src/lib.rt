//! Tests of what comes after publication: explanations, desks and halls of drop and add, audits;
//! and that the gate which a call is given is the one that its sessions and workers pass, which no
//! clause says, since a pass changes nothing. There is nothing else here, so that what they stand
//! on is proved once.
#![tactic(auto)]

#[cfg(test)]
mod tests;
