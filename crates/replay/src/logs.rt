// The lines that change the log apart from its table, which no history does.
use super::replies::{Reply, told};
use super::words::read;
use lines::BITS64;
use places::Table;
use refusal::Refusal;

const IDENTITY: [u64; 1] = [BITS64];

// The answer to the line `s` at the table `t`. Every other line leaves the table as it is.
pub(crate) fn answer(t: &mut Table, s: &[u8]) -> Reply {
    if let Some(rest) = s.strip_prefix(b"setidentity,") {
        let v = read(rest, &IDENTITY)?;
        return set_identity(t, v[0]);
    }
    if let Some(rest) = s.strip_prefix(b"logpurge,") {
        let v = read(rest, &IDENTITY)?;
        t.log.purge_up_to(v[0])?;
        return told(&[]);
    }
    if s == b"logempty".as_slice() {
        t.log.clear()?;
        return told(&[]);
    }
    super::questions::answer(t, s)
}

// The next identity is set, to reach the wrap. No log has the next identity 0.
fn set_identity(t: &mut Table, identity: u64) -> Reply {
    if identity == 0 {
        return Err(Refusal::NotWellKept);
    }
    t.log.next = identity;
    told(&[])
}
