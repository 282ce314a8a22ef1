// The lines of rounds: settings, the length of the id slice, and as many outcomes as follow.
ghost use Rattle.std.specs.Prelude.{◌≤◌, length, IfSome};

use super::calls::settings;
use super::replies::{Reply, VALUES, told};
use super::words::{narrow, read};
use answers::flag;
use fields::read_field;
use lines::{BITS8, BITS64, FLAG};
use places::Table;
use refusal::Refusal;
use round::Ending;

// Settings and slots.
const ROUND: [u64; 5] = [BITS64, BITS64, FLAG, FLAG, BITS8];

// A line of 4,096 bytes has room for fewer outcomes.
const OUTCOMES: usize = 2048;

// The most places that a slice of ids can have.
const SLOTS: usize = 255;

// What a place of the slice holds before the round, its number added.
const UNWRITTEN: u32 = 900_000_000;

// The answer to the line `s` at the table `t`.
pub(crate) fn answer(t: &mut Table, s: &[u8]) -> Reply {
    if let Some(rest) = s.strip_prefix(b"round,") {
        return round_line(t, rest);
    }
    super::logs::answer(t, s)
}

fn round_line(t: &mut Table, s: &[u8]) -> Reply {
    let (front, behind) = s.split_at(head(s));
    let v = read(front, &ROUND)?;
    let mut outcomes = [0u8; OUTCOMES];
    let count = read_outcomes(behind, &mut outcomes).ok_or(Refusal::BadLine)?;
    let mut ids = unwritten();
    let slots = usize::from(narrow::<u8>(v[4]));
    let lent = &mut ids[..slots];
    let ending = round::round(t, settings(v), &outcomes[..count], lent)?;
    made(ending, lent)
}

// Where the fifth comma stands, behind the settings and the slots; the line's end, where there is none.
fn head(s: &[u8]) -> usize
    ensures { result ≤ length s.now }
{
    let mut commas = s.iter().enumerate().filter(|(_, b)| **b == b',');
    commas.nth(4).map_or(s.len(), |(i, _)| i)
}

// How many outcomes `s` has, each behind its comma, which are put into `into`; none where it is no such part.
fn read_outcomes(s: &[u8], into: &mut [u8]) -> Option<usize>
    ensures { IfSome result (λ n. n ≤ length into.old) }
{
    let Some((_, mut rest)) = s.split_first() else {
        return Some(0);
    };
    for (i, place) in into.iter_mut().enumerate() {
        let field = read_field(rest, BITS8)?;
        *place = narrow(field.value);
        let Some(next) = field.next else {
            return Some(i + 1);
        };
        rest = &rest[next..];
    }
    None
}

// The slice of ids before the round.
fn unwritten() -> [u32; SLOTS] {
    let mut ids = [0u32; SLOTS];
    for (id, n) in ids.iter_mut().zip(UNWRITTEN..) {
        *id = n;
    }
    ids
}

// How many were handed out, whether nothing is reportable then, and every id of the slice.
fn made(x: Ending, ids: &[u32]) -> Reply {
    let mut values = [0u64; VALUES];
    values[0] = x.handouts as u64;
    values[1] = flag(x.silent);
    for (value, id) in values[2..].iter_mut().zip(ids) {
        *value = u64::from(*id);
    }
    told(&values[..ids.len().min(SLOTS) + 2])
}
