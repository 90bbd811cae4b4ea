// The laws of machines, each the contract of a function: of the translation of a sheet, and of runs.
#![tactic(auto)]

pub mod runs;
pub mod translation;
