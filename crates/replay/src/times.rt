// The lines of instants and intervals, which take no state. A line that none of the files before knew either is bad.
use super::replies::{Reply, told};
use super::words::{narrow, read};
use answers::flag;
use fields::PLACES;
use instants::Instant;
use lines::{BITS8, BITS16, BITS32, BITS64, FLAG};
use refusal::Refusal;
use time::KeepAlive;

const BACKOFF: [u64; 2] = [BITS8, BITS16];

const DUE_AFTER: [u64; 2] = [BITS16, FLAG];

const ICD_MAX: [u64; 2] = [BITS32, BITS16];

const SUB_MAX: [u64; 4] = [BITS16, BITS16, BITS16, BITS16];

const EXPIRED: [u64; 3] = [BITS64, BITS16, BITS64];

// The answer to the line `s`.
pub(crate) fn answer(s: &[u8]) -> Reply {
    if let Some(rest) = s.strip_prefix(b"backoff,") {
        return backoff(read(rest, &BACKOFF)?);
    }
    if let Some(rest) = s.strip_prefix(b"dueafter,") {
        return due_after(read(rest, &DUE_AFTER)?);
    }
    if let Some(rest) = s.strip_prefix(b"icdmax,") {
        return icd_max(read(rest, &ICD_MAX)?);
    }
    if let Some(rest) = s.strip_prefix(b"submax,") {
        return sub_max(read(rest, &SUB_MAX)?);
    }
    if let Some(rest) = s.strip_prefix(b"expired,") {
        return expired(read(rest, &EXPIRED)?);
    }
    Err(Refusal::BadLine)
}

fn backoff(v: [u64; PLACES]) -> Reply {
    let secs = time::retry_backoff_secs(narrow(v[0]), narrow(v[1]));
    told(&[u64::from(secs)])
}

fn due_after(v: [u64; PLACES]) -> Reply {
    let secs = KeepAlive::of(v[1] == FLAG).due_after_secs(narrow(v[0]));
    told(&[u64::from(secs)])
}

fn icd_max(v: [u64; PLACES]) -> Reply {
    let secs = time::icd_max_int_secs(narrow(v[0]), narrow(v[1]));
    told(&[u64::from(secs)])
}

fn sub_max(v: [u64; PLACES]) -> Reply {
    let secs = time::subscription_max_int_secs(
        narrow(v[0]),
        narrow(v[1]),
        narrow(v[2]),
        narrow(v[3]),
    );
    told(&[u64::from(secs)])
}

fn expired(v: [u64; PLACES]) -> Reply {
    let yes = time::is_expired(Instant::at(v[0]), narrow(v[1]), Instant::at(v[2]));
    told(&[flag(yes)])
}
