// What one trace line does to a table, and what is answered.
//
// Document 01, "Trace lines": the seven kinds of line are seven calls of the table; each answers a value or a refusal. A refused `new`
// leaves the table that was there. Every table and every line is taken; how a line is read and an answer printed is not said here.
#![tactic(auto)]

ghost use Rattle.std.specs.Prelude.{◌≡◌};
ghost use Rattle.places.specs.Calls.{tabled};
ghost use Rattle.answering.specs.Answers.{request_of, settings_of, renewed_in, added_in, noted_in, reported_in, done_in, asked_in, waking_in, answer_in};

use answers::flag;
use instants::Instant;
use lines::Line;
use places::Table;
use refusal::Refusal;
use subscription::{Request, Settings};
use time::KeepAlive;

// The line's call of the table.
#[tactic(auto, unfolding(crate::specs::Answers::answer_in))]
pub fn answer(table: &mut Table, line: Line) -> Result<u64, Refusal>
    ensures { tabled result table.new ≡ answer_in table.old line }
{
    match line {
        Line::New(capacity) => renewed(table, capacity),
        Line::Add {
            now,
            fabric,
            peer,
            min,
            max,
            events,
            rx,
        } => added(table, now, request(fabric, peer, min, max, rx), events),
        Line::Note {
            endpoint,
            cluster,
            attribute,
        } => noted(table, endpoint, cluster, attribute),
        Line::Report {
            now,
            events,
            icd,
            all,
        } => reported(table, now, events, icd, all),
        Line::Done { id, outcome } => done(table, id, outcome),
        Line::Attr {
            id,
            endpoint,
            cluster,
            attribute,
        } => asked(table, id, endpoint, cluster, attribute),
        Line::Wake { events, icd } => waking(table, events, icd),
        Line::Bad => Err(Refusal::BadLine),
    }
}

// A new table in place of the present one; its value is its capacity.
#[tactic(auto, unfolding(crate::specs::Answers::renewed_in))]
fn renewed(table: &mut Table, capacity: u8) -> Result<u64, Refusal>
    ensures { tabled result table.new ≡ renewed_in table.old capacity }
{
    let (made, fresh) = table::new(capacity);
    made?;
    *table = fresh;
    Ok(u64::from(fresh.capacity))
}

// The id.
#[tactic(auto, unfolding(crate::specs::Answers::added_in))]
fn added(table: &mut Table, now: u64, request: Request, events: u64) -> Result<u64, Refusal>
    ensures { tabled result table.new ≡ added_in table.old request events now }
{
    let id = table::add(table, request, events, Instant::at(now))?;
    Ok(u64::from(id))
}

// The identity.
#[tactic(auto, unfolding(crate::specs::Answers::noted_in))]
fn noted(table: &mut Table, endpoint: u16, cluster: u32, attr: u32) -> Result<u64, Refusal>
    ensures { tabled result table.new ≡ noted_in table.old endpoint cluster attr }
{
    let heard = table::note(table, endpoint, cluster, attr)?;
    Ok(heard.identity)
}

// The id, or 0 for nobody.
#[tactic(auto, unfolding(crate::specs::Answers::reported_in))]
fn reported(table: &mut Table, now: u64, events: u64, icd: bool, all: bool) -> Result<u64, Refusal>
    ensures { tabled result table.new ≡ reported_in table.old (settings_of now events icd all) }
{
    let at = Settings {
        now: Instant::at(now),
        events,
        kind: KeepAlive::of(icd),
        all,
    };
    match table::report(table, at)? {
        Some(handed) => Ok(u64::from(handed.id)),
        None => Ok(0),
    }
}

// 1 for kept, or 0.
#[tactic(auto, unfolding(crate::specs::Answers::done_in))]
fn done(table: &mut Table, id: u32, outcome: u8) -> Result<u64, Refusal>
    ensures { tabled result table.new ≡ done_in table.old id outcome }
{
    let ended = table::complete(table, id, outcome)?;
    Ok(flag(ended.kept))
}

// 1 for yes, or 0.
fn asked(table: &Table, id: u32, endpoint: u16, cluster: u32, attr: u32) -> Result<u64, Refusal>
    ensures { result ≡ asked_in table.now id endpoint cluster attr }
{
    let yes = table::should_report_attr(table, id, endpoint, cluster, attr)?;
    Ok(flag(yes))
}

// The instant.
fn waking(table: &Table, events: u64, icd: bool) -> Result<u64, Refusal>
    ensures { result ≡ waking_in table.now events icd }
{
    let next = table::next_report_at(table, events, KeepAlive::of(icd))?;
    Ok(next.ms)
}

fn request(fabric: u8, peer: u64, min: u16, max: u16, rx: u16) -> Request
    ensures { result ≡ request_of fabric peer min max rx }
{
    Request {
        peer,
        shortest: min,
        longest: max,
        rx,
        fabric,
    }
}
