// Bits of a row.
ghost use Rattle.std.specs.Prelude.{◌≡◌, ◌+◌, ◌^◌, ◌<◌, if◌then◌else◌};

// The row with this bit at a place above all its own.
#[tactic(auto, using(crate::proofs::RowBits::or_top))]
pub(crate) fn with_bit(row: u64, place: usize, bit: bool) -> u64
    requires { (place < 64) × (row < 2 ^ place) }
    ensures { result ≡ row + (if bit then 2 ^ place else 0) }
{
    if bit { row | 1 << place } else { row }
}
