// What the lines of a sheet mean on a recording, and the one evaluator.
#![tactic(auto)]

mod backward;
mod cells;
mod depth;
pub mod evaluator;
pub mod extent;
mod forward;
pub mod laws;
pub mod naming;
mod pointwise;
pub mod refusal;
mod repeating;
mod signals;
