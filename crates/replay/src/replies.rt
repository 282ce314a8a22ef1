// What a line is answered with: the values that it tells, or why it was refused. What a line asks is not known here.
use super::texts::{behind, put_numbers};
use printing::put_field;
use refusal::Refusal;

// A round tells two values and every id of its slice, of which there are at most 255; no other line tells more than six.
pub(crate) const VALUES: usize = 257;

pub(crate) type Reply = Result<Values, Refusal>;

// The first `count` values. The memory is fixed: the core has no heap.
#[derive(Clone, Copy)]
pub(crate) struct Values {
    values: [u64; VALUES],
    count: usize,
}

// The call acted, and tells the values.
pub(crate) fn told(values: &[u64]) -> Reply {
    let count = values.len().min(VALUES);
    let mut told = [0; VALUES];
    told[..count].copy_from_slice(&values[..count]);
    Ok(Values {
        values: told,
        count,
    })
}

// Puts line number, document 01's code, 0 where the call acted, and values into `out` at `at`, a space behind them, and answers the place
// after it.
pub(crate) fn put_reply(out: &mut [u8], at: usize, number: u64, reply: &Reply) -> usize {
    let a = put_field(out, at, number, b',');
    match reply {
        Ok(told) => {
            let values = &told.values[..told.count.min(VALUES)];
            let b = put_field(out, a, 0, behind(0, values.len(), b',', b' '));
            put_numbers(out, b, values, b',', b' ')
        }
        Err(why) => put_field(out, a, u64::from(why.number()), b' '),
    }
}
