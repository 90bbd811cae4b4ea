// What rule text is made of: parts between separators, the names line, and the tokens.
#![tactic(auto)]

pub mod names;
pub mod parts;
#[cfg(test)]
mod tests;
pub mod token;
