// The table of subscriptions: document 01, "Table". Every call tests the whole state and refuses 7 exactly where it isn't well kept, then
// document 01's other numbers in their order; a refusal leaves the table as it was. How a table lies in memory, what a call answers and
// what it does to the table is crate places' matter.
#![tactic(auto)]

mod admission;
mod keeping;
mod moves;
mod scans;

ghost use Rattle.std.specs.Prelude.{◌≡◌, ◌+◌, ◌-◌, ◌≤◌, true, length, Ok};
ghost use Rattle.rules.specs.Machine.{bad_reason};
ghost use Rattle.changes.specs.Logs.{kept as log_kept};
ghost use Rattle.places.specs.Views.{fresh_table, kept};
ghost use Rattle.places.specs.Calls.{tabled, new_table, add_to, resume_in, complete_in, attribute_at, send_at, cancels_in, remove_in, clear_in, purged_table, purge_in, note_in, hand_out_in, report_in, any_at, next_at, alive_at, fabric_count, load_of, has_at};
ghost use Rattle.table.specs.Scans.{well_kept};

use admission::{admits, next_id};
use answers::{Entered, value};
use changes::ChangedAttrs;
use choices::Choice;
use instants::Instant;
use keeping::{is_sound, within};
use moves::{emptied, ended, handed, opened_up, reason_after, stored_last, swept};
use places::{Ended, Handed, Heard, Load, Table};
use refusal::Refusal;
use scans::{
    any_chosen, any_priming, any_report, any_served, any_struck, count_of_fabric, first_ready,
    first_with_id, least_due, least_next, least_seen, one_with_id, open, stored,
};
use subscription::{ABANDONED, Request, Settings, Subscription};
use time::KeepAlive;

// How many places there are. The memory is fixed: the core has no heap.
pub(crate) const PLACES: usize = 80;

// The reason with which clearing cancels the open report.
const CLEARED: u8 = 255;

// A fresh table. A capacity that is none makes a table too, which every call refuses: `new_table`, `refused_unkept`.
pub fn new(capacity: u8) -> (Result<(), Refusal>, Table)
    ensures { tabled result.0 result.1 ≡ new_table capacity }
{
    if within(capacity, 0, 0) {
        (Ok(()), fresh(capacity))
    } else {
        (Err(Refusal::BadArgument), fresh(0))
    }
}

// A subscriber is admitted: it takes the next id, and its priming opens.
pub fn add(table: &mut Table, request: Request, events: u64, now: Instant) -> Result<u32, Refusal>
    ensures { tabled result table.new ≡ add_to table.old request events now }
{
    well_kept(table)?;
    let id = table.next;
    admits(table, request, id)?;
    let mark = value(table.log.watermark());
    opened_up(table, Subscription::primed(request, id, mark, events, now));
    table.next = next_id(id, id);
    Ok(id)
}

// A subscriber that a restart brings back is stored under the id that it knows.
pub fn resume(table: &mut Table, id: u32, request: Request, events: u64) -> Result<u32, Refusal>
    ensures { tabled result table.new ≡ resume_in table.old id request events }
{
    well_kept(table)?;
    admits(table, request, id)?;
    let mark = value(table.log.watermark());
    stored_last(table, Subscription::resumed(request, id, mark, events));
    table.next = next_id(table.next, id);
    Ok(id)
}

// The open report or priming with the id ends with the outcome.
pub fn complete(table: &mut Table, id: u32, outcome: u8) -> Result<Ended, Refusal>
    ensures { tabled result table.new ≡ complete_in table.old id outcome }
{
    well_kept(table)?;
    if ABANDONED < outcome {
        return Err(Refusal::BadArgument);
    }
    let i = first_with_id(open(table), id).ok_or(Refusal::NotOpen)?;
    Ok(ended(table, PLACES - table.opens + i, outcome))
}

// The stored ones that the choice takes go, and the open report is cancelled if it is among them. Primings stay. Whether it wakes.
pub fn remove(table: &mut Table, choice: Choice, reason: u8) -> Result<bool, Refusal>
    ensures { tabled result table.new ≡ remove_in table.old choice reason }
{
    well_kept(table)?;
    if is_bad_reason(reason) {
        return Err(Refusal::BadArgument);
    }
    let removes = any_chosen(stored(table), choice);
    let cancels = cancels(table, choice);
    swept(table, choice);
    table.cancel = reason_after(cancels, reason, table.cancel);
    Ok(removes || cancels)
}

// Every stored one goes, and the open report is cancelled. It does not wake.
pub fn clear(table: &mut Table) -> Result<bool, Refusal>
    ensures { tabled result table.new ≡ clear_in table.old }
{
    well_kept(table)?;
    if any_priming(open(table)) {
        return Err(Refusal::PrimingOpen);
    }
    let cancels = any_report(open(table));
    emptied(table);
    table.cancel = reason_after(cancels, CLEARED, table.cancel);
    Ok(false)
}

// Entries of the log that every stored one has seen go, unless something is open.
pub fn purge_reported_changes(table: &mut Table) -> Result<(), Refusal>
    ensures { tabled result table.new ≡ purge_in table.old }
{
    well_kept(table)?;
    purged(table);
    Ok(())
}

// A path has changed.
pub fn note(table: &mut Table, endpoint: u16, cluster: u32, attr: u32) -> Result<Heard, Refusal>
    ensures { tabled result table.new ≡ note_in table.old endpoint cluster attr }
{
    well_kept(table)?;
    let Entered { identity } = table.log.note(endpoint, cluster, attr)?;
    Ok(Heard {
        identity,
        wakes: true,
    })
}

// The first stored one that is reportable is handed out, if there is one.
pub fn report(table: &mut Table, at: Settings) -> Result<Option<Handed>, Refusal>
    ensures { tabled result table.new ≡ report_in table.old at }
{
    well_kept(table)?;
    if any_report(open(table)) {
        return Err(Refusal::ReportOpen);
    }
    Ok(hand_out(table, at))
}

// Whether the open report or priming with the id tells of the attribute.
pub fn should_report_attr(
    table: &Table,
    id: u32,
    endpoint: u16,
    cluster: u32,
    attr: u32,
) -> Result<bool, Refusal>
    ensures { result ≡ attribute_at table.now id endpoint cluster attr }
{
    well_kept(table)?;
    let x = one_with_id(open(table), id).ok_or(Refusal::NotOpen)?;
    if x.reported.is_never() {
        return Ok(true);
    }
    table.log.contains_since(endpoint, cluster, attr, x.seen)
}

// Whether the open report or priming with the id is sent though it has nothing to tell.
pub fn should_send_if_empty(table: &Table, id: u32, kind: KeepAlive) -> Result<bool, Refusal>
    ensures { result ≡ send_at table.now id kind }
{
    well_kept(table)?;
    let x = one_with_id(open(table), id).ok_or(Refusal::NotOpen)?;
    Ok(x.is_report_due(x.opened, kind))
}

// The earliest instant at which a stored one could report. `Settings` would ask for an instant and the all flag too.
pub fn next_report_at(table: &Table, events: u64, kind: KeepAlive) -> Result<Instant, Refusal>
    ensures { result ≡ next_at table.now events kind }
{
    well_kept(table)?;
    let newest = value(table.log.newest());
    let now = Instant::LAST;
    let at = Settings {
        now,
        events,
        kind,
        all: false,
    };
    Ok(least_next(stored(table), at, newest))
}

// Whether a stored one is reportable now. `Settings` would ask for the all flag too.
pub fn any_reportable(
    table: &Table,
    now: Instant,
    events: u64,
    kind: KeepAlive,
) -> Result<bool, Refusal>
    ensures { result ≡ any_at table.now now events kind }
{
    well_kept(table)?;
    let newest = value(table.log.newest());
    let at = Settings {
        now,
        events,
        kind,
        all: false,
    };
    Ok(first_ready(stored(table), at, newest).is_some())
}

// When an intermittently connected device wakes up for its subscriptions at the latest, if it has any.
pub fn next_keep_alive_at(table: &Table) -> Result<Option<Instant>, Refusal>
    ensures { result ≡ alive_at table.now }
{
    well_kept(table)?;
    if table.stored == 0 {
        return Ok(None);
    }
    Ok(Some(least_due(stored(table))))
}

// Figures for the status page: counted places, the stored of a fabric, and the ids given so far. Fabric 0 asks for none, as document 01
// has it.
pub fn load_stats(table: &Table, fabric: u8) -> Result<Load, Refusal>
    ensures { result ≡ load_of table.now fabric }
{
    well_kept(table)?;
    Ok(Load {
        places: table.stored + table.opens,
        fabric: of_fabric(table, fabric),
        established: table.next.saturating_sub(1),
    })
}

// Whether the peer has a subscription that is served: the last report to it did not fail.
pub fn has_subscription_for(table: &Table, fabric: u8, peer: u64) -> Result<bool, Refusal>
    ensures { result ≡ has_at table.now fabric peer }
{
    well_kept(table)?;
    Ok(any_served(stored(table), fabric, peer))
}

// Whether the table is well kept.
pub fn is_kept(table: &Table) -> bool
    ensures { result ≡ kept table.now }
{
    well_kept(table).is_ok()
}

// Nothing, where the table is well kept. That it has eighty places is in its type; the calls' proofs take it from here.
fn well_kept(table: &Table) -> Result<(), Refusal>
    ensures answer { result ≡ well_kept table.now }
    ensures long { length table.now.places ≡ 80 }
{
    let (stored, open) = (stored(table), open(table));
    if within(table.capacity, table.stored, table.opens)
        && table.log.is_kept()
        && is_sound(stored, open, table.cancel)
    {
        Ok(())
    } else {
        Err(Refusal::NotWellKept)
    }
}

fn fresh(capacity: u8) -> Table
    ensures { result ≡ fresh_table capacity }
{
    Table {
        places: [Subscription::BLANK; PLACES],
        log: ChangedAttrs::new(),
        stored: 0,
        opens: 0,
        next: 1,
        capacity,
        cancel: 0,
    }
}

// The first stored one that is reportable opens its report. It works behind the test, and asks for what that told.
fn hand_out(table: &mut Table, at: Settings) -> Option<Handed>
    requires counts { table.old.stored + table.old.opens ≤ 80 }
    requires long { length table.old.places ≡ 80 }
    requires log { log_kept table.old.log ≡ true }
    ensures { tabled (Ok result) table.new ≡ hand_out_in table.old at }
{
    let newest = value(table.log.newest());
    let i = first_ready(stored(table), at, newest)?;
    let mark = value(table.log.watermark());
    Some(handed(table, i, mark, at))
}

// Whether a removal cancels the open report: it is taken, and not cancelled yet.
fn cancels(table: &Table, choice: Choice) -> bool
    ensures { result ≡ cancels_in table.now choice }
{
    table.cancel == 0 && any_struck(open(table), choice)
}

// No removal gives the reason 0, which says that nothing is cancelled, nor that of clearing.
fn is_bad_reason(reason: u8) -> bool
    ensures { result ≡ bad_reason reason }
{
    reason == 0 || CLEARED <= reason
}

// The table without the entries that every stored one has seen. A well-kept log refuses neither a purge nor emptying.
fn purged(table: &mut Table)
    ensures { table.new ≡ purged_table table.old }
{
    if 0 < table.opens {
        return;
    }
    if 0 < table.stored {
        let seen = least_seen(stored(table), table.places[0].seen);
        let _ = table.log.purge_up_to(seen);
    } else {
        let _ = table.log.clear();
    }
}

// How many stored ones are of the fabric; none where no fabric is asked.
fn of_fabric(table: &Table, fabric: u8) -> usize
    ensures { result ≡ fabric_count table.now fabric }
{
    if fabric == 0 {
        return 0;
    }
    count_of_fabric(stored(table), fabric)
}
