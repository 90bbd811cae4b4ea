// A small symbolic machine in a fixed place, and the signed translation of a sealed sheet into it.
#![tactic(auto)]

pub mod gate;
pub mod place;
pub mod signs;
#[cfg(test)]
mod tests;
pub mod translator;
mod work;
