// Rule text: the reader that writes a rule's lines into a draft, and the faults that it refuses for.
#![tactic(auto)]

pub mod fault;
mod pending;
pub mod reader;
mod sign;
#[cfg(test)]
mod tests;
mod writing;
