// The lines by which stored ones go: removals, one for each choice, and clearing.
use super::replies::{Reply, told};
use super::words::{narrow, read};
use answers::flag;
use choices::Choice;
use instants::Instant;
use lines::{BITS8, BITS32, BITS64};
use places::Table;

const ALL: [u64; 1] = [BITS8];

const FABRIC: [u64; 2] = [BITS8, BITS8];

const PEER: [u64; 3] = [BITS8, BITS64, BITS8];

const ID: [u64; 2] = [BITS32, BITS8];

const EXPIRED: [u64; 2] = [BITS64, BITS8];

// The answer to the line `s` at the table `t`. The reason is the last field.
pub(crate) fn answer(t: &mut Table, s: &[u8]) -> Reply {
    if let Some(rest) = s.strip_prefix(b"remove,all,") {
        let v = read(rest, &ALL)?;
        return removed(t, Choice::All, v[0]);
    }
    if let Some(rest) = s.strip_prefix(b"remove,fabric,") {
        let v = read(rest, &FABRIC)?;
        return removed(t, Choice::Fabric(narrow(v[0])), v[1]);
    }
    if let Some(rest) = s.strip_prefix(b"remove,peer,") {
        let v = read(rest, &PEER)?;
        return removed(t, Choice::Peer(narrow(v[0]), v[1]), v[2]);
    }
    if let Some(rest) = s.strip_prefix(b"remove,id,") {
        let v = read(rest, &ID)?;
        return removed(t, Choice::Id(narrow(v[0])), v[1]);
    }
    if let Some(rest) = s.strip_prefix(b"remove,expired,") {
        let v = read(rest, &EXPIRED)?;
        return removed(t, Choice::ExpiredAt(Instant::at(v[0])), v[1]);
    }
    if s == b"clear".as_slice() {
        return told(&[flag(table::clear(t)?)]);
    }
    super::rounds::answer(t, s)
}

// Whether it wakes.
fn removed(t: &mut Table, choice: Choice, reason: u64) -> Reply {
    told(&[flag(table::remove(t, choice, narrow(reason))?)])
}
