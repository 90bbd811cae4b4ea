// What is answered of a bench file.
ghost use Rattle.std.specs.Prelude.{◌≡◌};
ghost use Rattle.bench_file.specs.Outcomes.{report_number, report_place};

use crate::refusal::FileRefusal;
use machine::place::Machine;
use meaning::refusal::Refusal;
use recording::refusal::TapeRefusal;
use recording::truth::Ternary;
use text::fault::Fault;

pub mod display;
pub mod from;

/// What is reported of a bench file: the rule's machine, and its verdict on the recording.
#[derive(Clone, Copy)]
pub struct Report {
    pub machine: Machine,
    pub verdict: Ternary,
}

/// Why nothing is reported.
#[derive(Clone, Copy, PartialEq, Eq, Debug)]
pub enum ReportRefusal {
    /// the bytes are no bench file
    File(FileRefusal),
    /// its samples make no tape
    Tape(TapeRefusal),
    /// its rule text has a fault
    Text(Fault),
    /// its rule is not judged on its tape
    Judging(Refusal),
}

impl ReportRefusal {
    /// Its number among the refused calls: each layer's refusal keeps its own.
    pub fn number(self) -> u8
        ensures { result ≡ report_number self }
    {
        match self {
            ReportRefusal::File(refusal) => refusal.number(),
            ReportRefusal::Tape(refusal) => refusal.number(),
            ReportRefusal::Text(fault) => fault.number(),
            ReportRefusal::Judging(refusal) => refusal.number(),
        }
    }

    /// The line of the file, or the place in its rule text, where it names one.
    pub fn place(self) -> Option<usize>
        ensures { result ≡ report_place self }
    {
        match self {
            ReportRefusal::File(refusal) => refusal.place(),
            ReportRefusal::Text(fault) => Some(fault.place()),
            ReportRefusal::Tape(_) | ReportRefusal::Judging(_) => None,
        }
    }
}
