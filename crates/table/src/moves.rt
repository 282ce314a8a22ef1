// What calls do to the table: one is stored, opens, is handed out or ends; the stored ones that a choice takes go. The counts are asked
// for, and no invariant of `Table`, since calls take tables that are not well kept; what stands here works behind their test. That there
// are eighty places is asked too: of an array behind a reference to another crate's type the check tells no length, unless it is read.
ghost use Rattle.std.specs.Prelude.{◌≡◌, ◌+◌, ◌-◌, ◌<◌, ◌≤◌, if◌then◌else◌, length, Ok, Some};
ghost use Rattle.choices.specs.Choices.{chosen};
ghost use Rattle.changes.specs.Logs.{watermark_of};
ghost use Rattle.places.specs.Moves.{stored_last, opened_up, swept_out, emptied};
ghost use Rattle.places.specs.Calls.{tabled, stays_after, ended_at, handed_out};

use super::PLACES;
use choices::Choice;
use places::{Ended, Handed, Table};
use subscription::{Settings, Subscription};
use sweeping::sweep;

// The stored one at a place is handed out: the last stored one fills its place, and it opens at the far end.
pub(crate) fn handed(table: &mut Table, i: usize, mark: u64, at: Settings) -> Handed
    requires { (table.old.stored + table.old.opens ≤ 80) × ((i < table.old.stored) × (mark ≡ watermark_of table.old.log)) }
    ensures { tabled (Ok (Some result)) table.new ≡ handed_out table.old at i }
{
    let x = table.places[i];
    let last = table.stored - 1;
    table.places[i] = table.places[last];
    table.places[last] = Subscription::BLANK;
    table.stored = last;
    opened_up(table, x.handed_out(mark, at.events, at.now));
    Handed { id: x.id, rx: x.rx }
}

// The open one at a place ends: the newest open one fills its place, and it is stored at the end where it stays.
pub(crate) fn ended(table: &mut Table, at: usize, outcome: u8) -> Ended
    requires { (table.old.stored + table.old.opens ≤ 80) × ((80 - table.old.opens ≤ at) × (at < 80)) }
    ensures { tabled (Ok result) table.new ≡ ended_at table.old at outcome }
{
    let x = table.places[at];
    let kept = stays(table.cancel, x, outcome);
    let newest = PLACES - table.opens;
    table.places[at] = table.places[newest];
    table.places[newest] = Subscription::BLANK;
    table.opens -= 1;
    table.cancel = reason_after(x.reporting, 0, table.cancel);
    if kept {
        stored_last(table, x.close(outcome));
    }
    Ended {
        kept,
        failed: x.has_failed(outcome),
    }
}

// One more is open.
pub(crate) fn opened_up(table: &mut Table, x: Subscription)
    requires { table.old.opens < 80 }
    ensures { table.new ≡ opened_up table.old x }
{
    table.opens += 1;
    table.places[PLACES - table.opens] = x;
}

// One more is stored, at the end.
pub(crate) fn stored_last(table: &mut Table, x: Subscription)
    requires { table.old.stored < 80 }
    ensures { table.new ≡ stored_last table.old x }
{
    table.places[table.stored] = x;
    table.stored += 1;
}

// The table without the stored ones that the choice takes: the last one fills each place and is looked at next.
pub(crate) fn swept(table: &mut Table, choice: Choice)
    requires { (table.old.stored ≤ 80) × (length table.old.places ≡ 80) }
    ensures { table.new ≡ swept_out (chosen choice) table.old }
{
    let stored = table.stored;
    let places = &mut table.places;
    let left = sweep(&mut places[..stored], |x| choice.takes(*x));
    places[left..stored].fill(Subscription::BLANK);
    table.stored = left;
}

// The table with nothing stored.
pub(crate) fn emptied(table: &mut Table)
    requires { (table.old.stored ≤ 80) × (length table.old.places ≡ 80) }
    ensures { table.new ≡ emptied table.old }
{
    table.places[..table.stored].fill(Subscription::BLANK);
    table.stored = 0;
}

// Whether an open one is stored again when it ends. A report that was cancelled is dropped whatever its outcome.
fn stays(cancel: u8, x: Subscription, outcome: u8) -> bool
    ensures { result ≡ stays_after cancel x outcome }
{
    !(x.reporting && cancel != 0) && x.is_kept(outcome)
}

// The cancel reason afterwards: a new one where something is cancelled, none where the cancelled report ends.
pub(crate) fn reason_after(changes: bool, reason: u8, before: u8) -> u8
    ensures { result ≡ (if changes then reason else before) }
{
    if changes { reason } else { before }
}
