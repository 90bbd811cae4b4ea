pub mod printing;

use recording::truth::Ternary;
use run::answer::Form;
use run::writing::Written;

/// How many lines and samples judging fills.
#[derive(Clone, Copy)]
pub struct Filled {
    pub lines: usize,
    pub samples: usize,
}

/// What judging answers: the value of the rule at sample 0, and what the cells hold.
#[derive(Clone, Copy)]
pub struct Judged {
    pub verdict: Ternary,
    pub filled: Filled,
}

/// What a call answers.
#[derive(Clone, Copy)]
pub enum Answer {
    /// the number of the line that was written
    Line(u8),
    Done,
    /// by the number of the refusal
    Refused(u8),
    /// the sheet has no such call while it has this form
    NotWhile(Form),
    /// there is no recording yet
    NoRecording,
    /// the recording has values that are neither no nor yes
    NotTwoValued,
    /// the machine place was filled: its tables follow
    Tables,
    /// the sheet was judged: a row for each sample follows
    Values(Judged),
    /// the run was written out: its rows follow
    Run(Written<Ternary>),
    /// whether a run is accepting
    Accepting(bool),
}
