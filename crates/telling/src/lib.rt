// How the answers to the calls of a script print.
#![tactic(auto)]

pub mod display;
pub mod rows;
pub mod told;
