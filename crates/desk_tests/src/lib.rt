//! Tests of the desk and its students: histories of calls, desks and halls, the text of a journal,
//! menus and budgets. There is nothing else here, so that what they stand on is proved once.
#![tactic(auto)]

#[cfg(test)]
mod tests;
