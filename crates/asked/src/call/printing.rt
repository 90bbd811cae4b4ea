// How the name of a call prints.
ghost use Rattle.std.specs.Prelude.{Some};
ghost use Rattle.asked.specs.Printing.{verb_text};

use crate::call::Verb;
use std::fmt;

impl fmt::Display for Verb {
    ghost output = { λ v. Some (verb_text v) };

    fn fmt<W: fmt::Write>(&self, f: &mut fmt::Formatter<W>) -> fmt::Result {
        match self {
            Verb::Write => write!(f, "write"),
            Verb::Strike => write!(f, "strike"),
            Verb::Seal => write!(f, "seal"),
            Verb::Reopen => write!(f, "reopen"),
            Verb::Translate => write!(f, "translate"),
            Verb::Tape => write!(f, "tape"),
            Verb::Gapped => write!(f, "gapped"),
            Verb::Wheel => write!(f, "wheel"),
            Verb::Cells => write!(f, "cells"),
            Verb::Rows => write!(f, "rows"),
            Verb::Judge => write!(f, "judge"),
            Verb::Run => write!(f, "run"),
            Verb::Check => write!(f, "check"),
        }
    }
}
