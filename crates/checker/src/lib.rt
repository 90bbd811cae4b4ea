// Checks whether finitely many rows are an accepting run of a machine on a recording.
#![tactic(auto)]

pub mod check;
mod evaluation;
mod moment;
pub mod refusal;
mod steps;
