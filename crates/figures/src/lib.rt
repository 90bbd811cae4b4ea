// Work to be measured beside plain Rust: each call makes its sheet and its recording, works so many rounds, and answers
// a checksum of what the last round left. Contracts here say little, since a measuring device has no subject of its own:
// what is measured is proved where it stands.
#![tactic(auto)]

pub mod checking;
pub mod judging;
mod making;
mod sums;
pub mod translating;
