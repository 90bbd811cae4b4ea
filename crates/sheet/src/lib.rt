// A sheet of up to 64 lines. A draft takes lines and gives them up; a sealed sheet does neither.
#![tactic(auto)]

pub mod draft;
pub mod line;
pub mod refusal;
pub mod sealed;
mod table;
#[cfg(test)]
mod tests;
