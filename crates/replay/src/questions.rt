// The lines of questions to a table and to its log.
use super::replies::{Reply, told};
use super::words::{narrow, read};
use answers::flag;
use changes::ChangedAttrs;
use fields::PLACES;
use instants::Instant;
use lines::{BITS8, BITS16, BITS32, BITS64, FLAG};
use places::Table;
use time::KeepAlive;

const ATTR: [u64; 4] = [BITS32, BITS16, BITS32, BITS32];

const SEND_EMPTY: [u64; 2] = [BITS32, FLAG];

const WAKE: [u64; 2] = [BITS64, FLAG];

const ANY: [u64; 3] = [BITS64, BITS64, FLAG];

const STATS: [u64; 1] = [BITS8];

const HAS: [u64; 2] = [BITS8, BITS64];

const CHANGED: [u64; 4] = [BITS16, BITS32, BITS32, BITS64];

const SINCE: [u64; 1] = [BITS64];

// The answer to the line `s` at the table `t`.
pub(crate) fn answer(t: &Table, s: &[u8]) -> Reply {
    if let Some(rest) = s.strip_prefix(b"attr,") {
        return attribute(t, read(rest, &ATTR)?);
    }
    if let Some(rest) = s.strip_prefix(b"sendempty,") {
        return send_empty(t, read(rest, &SEND_EMPTY)?);
    }
    if let Some(rest) = s.strip_prefix(b"wake,") {
        return wake(t, read(rest, &WAKE)?);
    }
    if let Some(rest) = s.strip_prefix(b"any,") {
        return any(t, read(rest, &ANY)?);
    }
    if s == b"keepalive".as_slice() {
        return alive(t);
    }
    if let Some(rest) = s.strip_prefix(b"stats,") {
        return statistics(t, read(rest, &STATS)?);
    }
    if let Some(rest) = s.strip_prefix(b"has,") {
        return has(t, read(rest, &HAS)?);
    }
    asked_of_the_log(&t.log, s)
}

// The same, of questions that go to the log alone.
fn asked_of_the_log(log: &ChangedAttrs, s: &[u8]) -> Reply {
    if let Some(rest) = s.strip_prefix(b"changed,") {
        return changed(log, read(rest, &CHANGED)?);
    }
    if let Some(rest) = s.strip_prefix(b"anysince,") {
        let v = read(rest, &SINCE)?;
        return told(&[flag(log.any_since(v[0])?)]);
    }
    if s == b"watermark".as_slice() {
        return told(&[log.watermark()?]);
    }
    super::singles::answer(log, s)
}

fn attribute(t: &Table, v: [u64; PLACES]) -> Reply {
    let yes = table::should_report_attr(t, narrow(v[0]), narrow(v[1]), narrow(v[2]), narrow(v[3]))?;
    told(&[flag(yes)])
}

fn send_empty(t: &Table, v: [u64; PLACES]) -> Reply {
    let yes = table::should_send_if_empty(t, narrow(v[0]), KeepAlive::of(v[1] == FLAG))?;
    told(&[flag(yes)])
}

fn wake(t: &Table, v: [u64; PLACES]) -> Reply {
    let next = table::next_report_at(t, v[0], KeepAlive::of(v[1] == FLAG))?;
    told(&[next.ms])
}

fn any(t: &Table, v: [u64; PLACES]) -> Reply {
    let kind = KeepAlive::of(v[2] == FLAG);
    let yes = table::any_reportable(t, Instant::at(v[0]), v[1], kind)?;
    told(&[flag(yes)])
}

// Whether there is one, and when.
fn alive(t: &Table) -> Reply {
    match table::next_keep_alive_at(t)? {
        Some(at) => told(&[1, at.ms]),
        None => told(&[0, 0]),
    }
}

// Counted places, the stored of the fabric, and the ids given so far.
fn statistics(t: &Table, v: [u64; PLACES]) -> Reply {
    let load = table::load_stats(t, narrow(v[0]))?;
    told(&[
        load.places as u64,
        load.fabric as u64,
        u64::from(load.established),
    ])
}

fn has(t: &Table, v: [u64; PLACES]) -> Reply {
    let yes = table::has_subscription_for(t, narrow(v[0]), v[1])?;
    told(&[flag(yes)])
}

fn changed(log: &ChangedAttrs, v: [u64; PLACES]) -> Reply {
    let yes = log.contains_since(narrow(v[0]), narrow(v[1]), narrow(v[2]), v[3])?;
    told(&[flag(yes)])
}
