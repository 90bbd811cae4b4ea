// The names line, read through a view of the caller's bytes.
ghost use Rattle.std.specs.Prelude.{◌≡◌, length, Decides};
ghost use Rattle.std.specs.Iterator.Adapters.{take_count, take_source};
ghost use Rattle.lexer.specs.Names.{IsName, IsFirst, Opened, Finds, known, line_of, names_number, spaced};
ghost use Rattle.lexer.specs.Parts.{Nth, parts_left};

use crate::parts::{Parts, nth_part};
use std::iter::Take;

/// The names of a line of 1 to 32 different names, parted by one space. A name is 1 to 8 lower-case letters.
#[derive(Clone, Copy)]
pub struct Names<'a> {
    bytes: &'a [u8],
}

/// Why a names line is refused.
#[derive(Clone, Copy, PartialEq, Eq, Debug)]
pub enum NamesRefusal {
    /// It is not such a line.
    Malformed,
}

impl NamesRefusal {
    /// Its number among the refused calls.
    pub fn number(self) -> u8
        ensures { result ≡ names_number self }
    {
        match self {
            NamesRefusal::Malformed => 18,
        }
    }
}

// Whether the bytes are a name.
fn is_name(bytes: &[u8]) -> bool
    ensures { Decides result (IsName bytes.now) }
{
    (1..=8).contains(&bytes.len()) && bytes.iter().all(u8::is_ascii_lowercase)
}

impl<'a> Names<'a> {
    /// The view of a names line.
    pub fn new(bytes: &'a [u8]) -> Result<Names<'a>, NamesRefusal>
        ensures { Opened bytes.now result }
    {
        if nth_part(bytes, b' ', 32).is_some() {
            return Err(NamesRefusal::Malformed);
        }
        let names = Names { bytes };
        let good = names.iter().enumerate().all(|(number, name)| {
            is_name(name) && names.is_first(name, number as u8)
        });
        if good {
            Ok(names)
        } else {
            Err(NamesRefusal::Malformed)
        }
    }

    // The names in order, no more than 32.
    fn iter(&self) -> Take<Parts<'a>>
        ensures source { parts_left (take_source result) ≡ spaced (line_of self.now) }
        ensures count { take_count result ≡ 32 }
    {
        Parts::new(self.bytes, b' ').take(32)
    }

    /// How many names there are.
    pub fn count(&self) -> u8
        ensures { result ≡ length (known self.now) }
    {
        self.iter().count() as u8
    }

    /// The name of that number, if there are so many.
    pub fn get(&self, number: u8) -> Option<&'a [u8]>
        ensures { Nth (known self.now) number result }
    {
        if number >= 32 {
            return None;
        }
        nth_part(self.bytes, b' ', number as usize)
    }

    // Whether that is the first number that has the name.
    fn is_first(&self, name: &[u8], number: u8) -> bool
        ensures { Decides result (IsFirst (known self.now) name.now number) }
    {
        self.find(name) == Some(number)
    }

    /// The first number that has the name.
    pub fn find(&self, name: &[u8]) -> Option<u8>
        ensures { Finds (known self.now) name.now result }
    {
        let number = self.iter().position(|other| other == name)?;
        Some(number as u8)
    }
}
