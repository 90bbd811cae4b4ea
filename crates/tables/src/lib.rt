// The tables of a machine as text: gates, variables, fairness pairs and the root.
#![tactic(auto)]

pub mod printed;
pub mod row;
