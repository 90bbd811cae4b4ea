// What a call answers a C caller.
ghost use Rattle.std.specs.Prelude.{◌≡◌};
ghost use Rattle.yungaslid.specs.Answers.{answered as answered_as, refused as refused_as, told as told_as};

pub mod from;

/// A value, or a refusal by its number and its place.
#[repr(C)]
#[derive(Clone, Copy, PartialEq, Eq, Debug)]
pub struct Answer {
    /// 0 where the call was answered, else the refusal's number
    pub number: u32,
    /// the refusal's place; 2^64 - 1 where it has none, and where the call was answered
    pub place: u64,
    /// what was answered; 0 where the call was refused
    pub value: u64,
}

// The place of what has none.
const NOWHERE: u64 = u64::MAX;

impl Answer {
    pub(crate) fn answered(value: u64) -> Answer
        ensures { result ≡ answered_as value }
    {
        Answer {
            number: 0,
            place: NOWHERE,
            value,
        }
    }

    pub(crate) fn refused(number: u8, place: Option<usize>) -> Answer
        ensures { result ≡ refused_as number place }
    {
        Answer {
            number: u32::from(number),
            place: place.map_or(NOWHERE, |place| place as u64),
            value: 0,
        }
    }
}

// How a result is told.
pub(crate) fn told(res: Result<u64, Answer>) -> Answer
    ensures { result ≡ told_as res }
{
    match res {
        Ok(value) => Answer::answered(value),
        Err(refused) => refused,
    }
}
