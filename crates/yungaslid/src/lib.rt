// The part that programs in C link: a rule's machine as text, its verdict on a gapped tape, and the check of a run.
#![tactic(auto)]

pub mod answer;
pub mod cell;
pub mod checking;
pub mod listing;
#[cfg(test)]
mod tests;
pub mod verdict;
