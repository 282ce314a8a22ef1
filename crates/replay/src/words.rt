// Fields of a line as numbers of their widths. Every number is taken; which width a field has is said where it is read.
ghost use Rattle.std.specs.Prelude.{Result};
ghost use Rattle.std.specs.Result.{ResultUnwrapsOrElse};

use fields::{PLACES, read_fields};
use refusal::Refusal;

// The fields behind a line's word; a line that has others is bad.
pub(crate) fn read(s: &[u8], widths: &[u64]) -> Result<[u64; PLACES], Refusal> {
    read_fields(s, 0, widths).ok_or(Refusal::BadLine)
}

// A field as a number of the width that it was read within. Any number above that width would be 0, the default of each width.
pub(crate) fn narrow<T: TryFrom<u64> + Default>(x: u64) -> T
where
    T: Drop,
    T::Error: Drop,
    ensures { (fits : Result T T.Error) × (T.try_from_gives x fits × ResultUnwrapsOrElse fits T.is_default result) }
{
    T::try_from(x).unwrap_or_default()
}
