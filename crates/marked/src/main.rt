// Document 01's marked examples P1 to P12 as the compiled code answers them, a line each. That the definitions give these values is proved
// in crate rules; here the code itself is run, since the proofs do not cover the compiler's back end.
#![tactic(auto)]

use changes::ChangedAttrs;
use instants::Instant;
use places::Table;
use refusal::Refusal;
use std::io;
use subscription::{Request, SENT, Settings};
use time::KeepAlive;

const REQUEST: Request = Request {
    peer: 7,
    shortest: 1,
    longest: 60,
    rx: 0,
    fabric: 1,
};

fn main(rt: HostRuntime) -> io::Result<()> {
    value(&rt, b"P1", time::retry_backoff_secs(1, 60))?;
    value(&rt, b"P2", time::retry_backoff_secs(6, 60))?;
    value(&rt, b"P3", time::retry_backoff_secs(255, 65535))?;
    value(&rt, b"P4", time::retry_backoff_secs(3, 0))?;
    value(&rt, b"P5", KeepAlive::Default.due_after_secs(61))?;
    value(&rt, b"P6", KeepAlive::Icd.due_after_secs(5))?;
    value(
        &rt,
        b"P7",
        time::subscription_max_int_secs(60, 55, 0, 65535),
    )?;
    log(&rt, b"P8", crowded(|i| (1, 6, u32::from(i)), (2, 6, 0)))?;
    log(
        &rt,
        b"P9",
        crowded(|i| (1, u32::from(i) + 1, 0), (1, 17, 0)),
    )?;
    log(
        &rt,
        b"P10",
        crowded(|i| (u16::from(i) + 1, 6, 0), (17, 6, 0)),
    )?;
    last_id(&rt)?;
    swap(&rt)
}

// A fresh log after an example's sixteen notes and one more, each an endpoint, a cluster and an attribute.
fn crowded<F: Fn(u8) -> (u16, u32, u32)>(
    path: F,
    last: (u16, u32, u32),
) -> Result<ChangedAttrs, Refusal>
    requires { F.IsAlwaysCallable path }
{
    let mut log = ChangedAttrs::new();
    for i in 0..16 {
        let (endpoint, cluster, attr) = path(i);
        log.note(endpoint, cluster, attr)?;
    }
    let (endpoint, cluster, attr) = last;
    log.note(endpoint, cluster, attr)?;
    Ok(log)
}

// The example's name and its value.
fn value(rt: &impl Print, name: &[u8], seconds: u16) -> io::Result<()> {
    rt.write_all(name)?;
    print!(rt; " {seconds}\n")
}

// The example's name and the log's entries.
fn log(rt: &impl Print, name: &[u8], made: Result<ChangedAttrs, Refusal>) -> io::Result<()> {
    rt.write_all(name)?;
    match made {
        Ok(log) => entries(rt, &log)?,
        Err(why) => refused(rt, why)?,
    }
    rt.write_all(b"\n")
}

// Each entry as endpoint, cluster, attribute and identity.
fn entries(rt: &impl Print, log: &ChangedAttrs) -> io::Result<()> {
    for x in log.held.entries.iter().take(log.held.len) {
        print!(rt; " : {} {} {} {}", x.endpoint, x.cluster, x.attr, x.identity)?;
    }
    Ok(())
}

// P11: after the resumed id the last one of all is given, and stays the next one: it is live, so the third is refused.
fn last_id(rt: &impl Print) -> io::Result<()> {
    let (_, mut t) = table::new(80);
    rt.write_all(b"P11")?;
    admission(rt, table::resume(&mut t, u32::MAX - 1, REQUEST, 0))?;
    admission(rt, table::add(&mut t, REQUEST, 0, Instant::at(1000)))?;
    admission(rt, table::add(&mut t, REQUEST, 0, Instant::at(1000)))?;
    rt.write_all(b"\n")
}

// The id that was given, or the number of the refusal.
fn admission(rt: &impl Print, answer: Result<u32, Refusal>) -> io::Result<()> {
    match answer {
        Ok(id) => print!(rt; " {id}"),
        Err(why) => refused(rt, why),
    }
}

// P12: A, B and C have the ids 1, 2 and 3; who is stored, in order, before A is handed out and after it is kept.
fn swap(rt: &impl Print) -> io::Result<()> {
    rt.write_all(b"P12")?;
    match swapped() {
        Ok((before, after)) => {
            stored(rt, &before)?;
            stored(rt, &after)?;
        }
        Err(why) => refused(rt, why)?,
    }
    rt.write_all(b"\n")
}

// The table before and after.
fn swapped() -> Result<(Table, Table), Refusal> {
    let (made, mut before) = table::new(80);
    made?;
    for id in 1..4 {
        table::resume(&mut before, id, REQUEST, 0)?;
    }
    let at = Settings {
        now: Instant::at(1000),
        events: 0,
        kind: KeepAlive::Default,
        all: false,
    };
    let mut after = before;
    table::report(&mut after, at)?;
    table::complete(&mut after, 1, SENT)?;
    Ok((before, after))
}

// The ids of the stored ones, in order.
fn stored(rt: &impl Print, table: &Table) -> io::Result<()> {
    rt.write_all(b" :")?;
    for x in table.places.iter().take(table.stored) {
        print!(rt; " {}", x.id)?;
    }
    Ok(())
}

fn refused(rt: &impl Print, why: Refusal) -> io::Result<()> {
    print!(rt; " refused {}", why.number())
}
