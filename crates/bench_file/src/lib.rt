// The file of a bench: a title, the stem, the cycle and the rule, the names, and a line of marks for each sample.
#![tactic(auto)]

pub mod file;
mod form;
pub mod outcome;
pub mod refusal;
pub mod report;
#[cfg(test)]
mod tests;
