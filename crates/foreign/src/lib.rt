// Made outside the library: truth kinds and a recording of one's own, judged by the same evaluator.
#![tactic(auto)]

pub mod kinds;
pub mod once;
#[cfg(test)]
mod tests;
pub mod wave;
