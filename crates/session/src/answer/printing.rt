// How an answer prints, after the name of its call.
ghost use Rattle.std.specs.Prelude.{Some};
ghost use Rattle.session.specs.Printing.{answer_text};

use crate::among::AmongThree;
use crate::answer::Answer;
use std::fmt;

impl fmt::Display for Answer {
    ghost output = { λ a. Some (answer_text a) };

    fn fmt<W: fmt::Write>(&self, f: &mut fmt::Formatter<W>) -> fmt::Result {
        match *self {
            Answer::Line(number) => write!(f, " line {number}"),
            Answer::Done => write!(f, " done"),
            Answer::Refused(number) => write!(f, " refused {number}"),
            Answer::NotWhile(form) => write!(f, " not while {form}"),
            Answer::NoRecording => write!(f, " no recording"),
            Answer::NotTwoValued => write!(f, " not two-valued"),
            Answer::Tables => Ok(()),
            Answer::Values(judged) => write!(f, " {}", judged.verdict),
            Answer::Run(run) => write!(f, " {} {} {}", run.rows, run.back, run.verdict),
            Answer::Accepting(is) => write!(f, " {}", is.as_ternary()),
        }
    }
}
