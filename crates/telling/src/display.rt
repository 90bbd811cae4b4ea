// How an answer prints, after the name of its call.
ghost use Rattle.std.specs.Prelude.{Some};
ghost use Rattle.telling.specs.Telling.{told_text};

use crate::told::Told;
use std::fmt;

impl fmt::Display for Told {
    ghost output = { λ t. Some (told_text t) };

    fn fmt<W: fmt::Write>(&self, f: &mut fmt::Formatter<W>) -> fmt::Result {
        write!(f, "{}:{}", self.verb, self.answer)
    }
}
