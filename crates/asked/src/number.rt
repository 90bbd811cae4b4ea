// Numbers in base ten.
ghost use Rattle.std.specs.Prelude.{◌≡◌};
ghost use Rattle.asked.specs.Words.{number};

/// 2 ^ 64: what a number past 64 bits counts as.
pub const PAST: u128 = 18_446_744_073_709_551_616;

/// The number that a word is, if it is digits alone.
pub fn read_number(word: &[u8]) -> Option<u128>
    ensures { result ≡ number word.now }
{
    if word.is_empty() {
        return None;
    }
    // a loop: that ten times the value fits is known from the digit before
    let mut value: u128 = 0;
    for b in word {
        if !b.is_ascii_digit() {
            return None;
        }
        value = (value * 10 + u128::from(*b - b'0')).min(PAST);
    }
    Some(value)
}
