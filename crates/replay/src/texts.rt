// Words and numbers as text in a lent buffer. Every buffer and every place is taken; what has no room is left out.
ghost use Rattle.std.specs.Prelude.{◌≡◌, if◌then◌else◌, nat_lt};

use printing::put_field;

// Puts `word` into `out` at `at`, and answers the place after it.
pub(crate) fn put_word(out: &mut [u8], at: usize, word: &[u8]) -> usize {
    let n = word.len().min(out.len().saturating_sub(at));
    if n > 0 {
        out[at..at + n].copy_from_slice(&word[..n]);
    }
    at + n
}

// Puts the numbers into `out` at `at`, `between` between them and `end` behind the last, and answers the place after it.
pub(crate) fn put_numbers(
    out: &mut [u8],
    at: usize,
    numbers: &[u64],
    between: u8,
    end: u8,
) -> usize {
    let mut k = at;
    for (i, &n) in numbers.iter().enumerate() {
        k = put_field(out, k, n, behind(i + 1, numbers.len(), between, end));
    }
    k
}

// The byte behind one of `count` things, where the next would be the one at `i`.
pub(crate) fn behind(i: usize, count: usize, between: u8, end: u8) -> u8
    ensures { result ≡ (if nat_lt i count then between else end) }
{
    if i < count { between } else { end }
}
