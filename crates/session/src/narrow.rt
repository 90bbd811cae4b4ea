// Numbers of a script as numbers of fewer bits.
ghost use Rattle.std.specs.Prelude.{◌≡◌, ◌-◌, ◌^◌, min, IfOk};
ghost use Rattle.session.specs.Narrowing.{Narrowed};

use std::alloc::{AllocError, Global};

// The numbers, unless one of them is past what the type holds.
pub(crate) fn narrowed<T: TryFrom<u128> + Copy>(
    heap: Global,
    numbers: &[u128],
) -> Result<Option<Vec<T>>, AllocError>
where
    T::Error: Drop,
    ensures { IfOk result (Narrowed T.TryFrom.try_from_gives numbers.now) }
{
    let mut found = Vec::new(heap);
    for n in numbers {
        let Ok(x) = T::try_from(*n) else {
            return Ok(None);
        };
        found.push(x)?;
    }
    Ok(Some(found))
}

// A size of 32 bits: one past them counts as the largest, which is refused like it.
pub(crate) fn size(n: u128) -> u32
    ensures { result ≡ min n (2 ^ 32 - 1) }
{
    u32::try_from(n).unwrap_or(u32::MAX)
}

// A place of 64 bits, in the same way.
pub(crate) fn place(n: u128) -> usize
    ensures { result ≡ min n (2 ^ 64 - 1) }
{
    usize::try_from(n).unwrap_or(usize::MAX)
}
