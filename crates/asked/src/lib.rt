// The calls of a script: which call a line is.
#![tactic(auto)]

pub mod call;
pub mod number;
#[cfg(test)]
mod tests;
