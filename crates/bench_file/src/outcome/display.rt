// How a report and a refusal print.
ghost use Rattle.std.specs.Prelude.{Some};
ghost use Rattle.bench_file.specs.Printing.{report_text, place_text, refused_text};

use crate::outcome::{Report, ReportRefusal};
use std::fmt;
use tables::printed::Printed;

impl fmt::Display for Report {
    ghost output = { λ r. Some (report_text r) };

    fn fmt<W: fmt::Write>(&self, f: &mut fmt::Formatter<W>) -> fmt::Result {
        let printed = Printed {
            machine: &self.machine,
        };
        let verdict = self.verdict;
        write!(f, "{printed}verdict\n{verdict}\n")
    }
}

// A place, or a dash for none.
#[derive(Clone, Copy)]
struct Place(Option<usize>);

impl fmt::Display for Place {
    ghost output = { λ p. Some (place_text p.0) };

    fn fmt<W: fmt::Write>(&self, f: &mut fmt::Formatter<W>) -> fmt::Result {
        match self.0 {
            Some(place) => write!(f, "{place}"),
            None => write!(f, "-"),
        }
    }
}

impl fmt::Display for ReportRefusal {
    ghost output = { λ r. Some (refused_text r) };

    fn fmt<W: fmt::Write>(&self, f: &mut fmt::Formatter<W>) -> fmt::Result {
        let number = self.number();
        let place = Place(self.place());
        write!(f, "number place\n{number} {place}\n")
    }
}
