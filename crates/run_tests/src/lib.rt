// Runs written out and checked, and histories of calls, on examples.
#![tactic(auto)]

#[cfg(test)]
mod tests;
