// What stands between the separators of a row of bytes.
ghost use Rattle.std.specs.Prelude.{◌≡◌, ◌∷◌};
ghost use Rattle.std.specs.Iterator.{YieldsFirstRef, item_count};
ghost use Rattle.lexer.specs.Parts.{parts as parting, Joins, Nth, parts_left, rest_parts};

/// The bytes before the first separator, and those after it, if there is one.
#[derive(Clone, Copy)]
pub struct Part<'a> {
    pub bytes: &'a [u8],
    pub rest: Option<&'a [u8]>,
}

/// Cuts the first part off.
pub fn first_part<'a>(bytes: &'a [u8], separator: u8) -> Part<'a>
    ensures parted { parting separator bytes.now ≡ result.bytes.now ∷ rest_parts separator result.rest }
    ensures whole { Joins separator bytes.now result.bytes.now result.rest }
{
    match bytes.iter().position(|byte| *byte == separator) {
        Some(end) => Part {
            bytes: &bytes[..end],
            rest: Some(&bytes[end + 1..]),
        },
        None => Part { bytes, rest: None },
    }
}

/// The parts of a row of bytes, in order.
#[derive(Clone, Copy)]
pub struct Parts<'a> {
    rest: Option<&'a [u8]>,
    separator: u8,
}

impl<'a> Parts<'a> {
    /// All the parts.
    pub fn new(bytes: &'a [u8], separator: u8) -> Parts<'a>
        ensures { parts_left result ≡ parting separator bytes.now }
    {
        Parts {
            rest: Some(bytes),
            separator,
        }
    }
}

impl<'a> Iterator for Parts<'a> {
    type Item = &'a [u8];

    ghost next_gives = { YieldsFirstRef parts_left };

    ghost remaining = { item_count parts_left };

    fn next(&mut self) -> Option<&'a [u8]> {
        let part = first_part(self.rest?, self.separator);
        self.rest = part.rest;
        Some(part.bytes)
    }
}

/// The part of that number, if there are so many.
pub fn nth_part<'a>(bytes: &'a [u8], separator: u8, number: usize) -> Option<&'a [u8]>
    ensures { Nth (parting separator bytes.now) number result }
{
    Parts::new(bytes, separator).nth(number)
}
