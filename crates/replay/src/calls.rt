// The lines of the calls by which a table changes.
use super::replies::{Reply, told};
use super::words::{narrow, read};
use answers::flag;
use fields::PLACES;
use instants::Instant;
use lines::{BITS8, BITS16, BITS32, BITS64, FLAG};
use places::Table;
use subscription::{Request, Settings};
use time::KeepAlive;

const NEW: [u64; 1] = [BITS8];

const ADD: [u64; 7] = [BITS64, BITS8, BITS64, BITS16, BITS16, BITS64, BITS16];

const RESUME: [u64; 7] = [BITS32, BITS8, BITS64, BITS16, BITS16, BITS64, BITS16];

const NOTE: [u64; 3] = [BITS16, BITS32, BITS32];

const REPORT: [u64; 4] = [BITS64, BITS64, FLAG, FLAG];

const DONE: [u64; 2] = [BITS32, BITS8];

// The answer to the line `s` at the table `t`.
pub(crate) fn answer(t: &mut Table, s: &[u8]) -> Reply {
    if let Some(rest) = s.strip_prefix(b"new,") {
        return new(t, read(rest, &NEW)?);
    }
    if let Some(rest) = s.strip_prefix(b"add,") {
        return add(t, read(rest, &ADD)?);
    }
    if let Some(rest) = s.strip_prefix(b"resume,") {
        return resume(t, read(rest, &RESUME)?);
    }
    if let Some(rest) = s.strip_prefix(b"note,") {
        return note(t, read(rest, &NOTE)?);
    }
    if let Some(rest) = s.strip_prefix(b"report,") {
        return report(t, read(rest, &REPORT)?);
    }
    if let Some(rest) = s.strip_prefix(b"done,") {
        return done(t, read(rest, &DONE)?);
    }
    if s == b"purge".as_slice() {
        table::purge_reported_changes(t)?;
        return told(&[]);
    }
    super::removals::answer(t, s)
}

// A refused new table leaves the one that was there.
fn new(t: &mut Table, v: [u64; PLACES]) -> Reply {
    let (made, table) = table::new(narrow(v[0]));
    made?;
    *t = table;
    told(&[v[0]])
}

fn add(t: &mut Table, v: [u64; PLACES]) -> Reply {
    let id = table::add(t, request(v), v[5], Instant::at(v[0]))?;
    told(&[u64::from(id)])
}

fn resume(t: &mut Table, v: [u64; PLACES]) -> Reply {
    let id = table::resume(t, narrow(v[0]), request(v), v[5])?;
    told(&[u64::from(id)])
}

// What add and resume bring, behind their first field.
fn request(v: [u64; PLACES]) -> Request {
    Request {
        peer: v[2],
        shortest: narrow(v[3]),
        longest: narrow(v[4]),
        rx: narrow(v[6]),
        fabric: narrow(v[1]),
    }
}

// The identity, and whether it wakes.
fn note(t: &mut Table, v: [u64; PLACES]) -> Reply {
    let heard = table::note(t, narrow(v[0]), narrow(v[1]), narrow(v[2]))?;
    told(&[heard.identity, flag(heard.wakes)])
}

// Whether somebody is handed out, whom, and the number of its request bytes.
fn report(t: &mut Table, v: [u64; PLACES]) -> Reply {
    match table::report(t, settings(v))? {
        Some(handed) => told(&[1, u64::from(handed.id), u64::from(handed.rx)]),
        None => told(&[0, 0, 0]),
    }
}

// The settings at the front of the fields.
pub(crate) fn settings(v: [u64; PLACES]) -> Settings {
    Settings {
        now: Instant::at(v[0]),
        events: v[1],
        kind: KeepAlive::of(v[2] == FLAG),
        all: v[3] == FLAG,
    }
}

// Whether it is kept, and whether its subscriber has gone quiet.
fn done(t: &mut Table, v: [u64; PLACES]) -> Reply {
    let ended = table::complete(t, narrow(v[0]), narrow(v[1]))?;
    told(&[flag(ended.kept), flag(ended.failed)])
}
