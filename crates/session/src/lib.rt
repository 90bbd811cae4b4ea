// What the calls of a script do: to its sheet, by the calls of the library; and to its bench, which has the recording and
// all that is lent.
#![tactic(auto)]

pub mod among;
pub mod answer;
pub mod bench;
mod narrow;
pub mod performing;
mod replying;
