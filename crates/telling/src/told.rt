use asked::call::Verb;
use session::answer::{Answer, Filled};
use session::bench::Bench;

/// An answer to a call of this name.
#[derive(Clone, Copy)]
pub struct Told {
    pub verb: Verb,
    pub answer: Answer,
}

/// The samples that were judged on a bench, to be printed: a row for each, with the values of the lines.
#[derive(Clone, Copy)]
pub struct JudgedRows<'a> {
    pub bench: &'a Bench,
    pub filled: Filled,
}

/// The first so many rows of a bench, to be printed: a row to a line.
#[derive(Clone, Copy)]
pub struct RunRows<'a> {
    pub bench: &'a Bench,
    pub count: usize,
}
