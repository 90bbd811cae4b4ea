// Truth kinds, and recordings, whose meaning is an endless word: tapes, gapped tapes, wheels.
#![tactic(auto)]

pub mod gapped;
pub mod recording;
pub mod refusal;
mod sizes;
pub mod tape;
pub mod truth;
pub mod wheel;
