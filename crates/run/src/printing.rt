// How the form of a sheet prints.
ghost use Rattle.std.specs.Prelude.{Some};
ghost use Rattle.run.specs.Printing.{form_text};

use crate::answer::Form;
use std::fmt;

impl fmt::Display for Form {
    ghost output = { λ x. Some (form_text x) };

    fn fmt<W: fmt::Write>(&self, f: &mut fmt::Formatter<W>) -> fmt::Result {
        match self {
            Form::Draft => write!(f, "draft"),
            Form::Sealed => write!(f, "sealed"),
        }
    }
}
