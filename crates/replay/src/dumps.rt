// The whole state as text, as ../shared/REPLAY.md lists it, in one order for every state that is the same. Each part begins with its name
// and ends with the byte before the next one: a space, or the line's CR.
use super::texts::{behind, put_numbers, put_word};
use entries::ChangedAttr;
use notes::Held;
use places::Table;
use printing::put_field;
use subscription::Subscription;

// Puts the state and a CRLF into `out` at `at`, and answers the place after them.
pub(crate) fn put_state(out: &mut [u8], at: usize, t: &Table) -> usize {
    let a = put_counts(out, at, t);
    let b = put_log(out, a, &t.log.held);
    let c = put_stored(out, b, t);
    let d = put_report(out, c, t);
    let e = put_primings(out, d, t);
    put_word(out, e, b"\n")
}

// Capacity, counted places, next id, next identity and cancel reason.
fn put_counts(out: &mut [u8], at: usize, t: &Table) -> usize {
    let counted = (t.stored as u64).wrapping_add(t.opens as u64);
    let a = put_named(out, at, b"cap=", u64::from(t.capacity));
    let b = put_named(out, a, b"count=", counted);
    let c = put_named(out, b, b"id=", u64::from(t.next));
    let d = put_named(out, c, b"identity=", t.log.next);
    put_named(out, d, b"cancel=", u64::from(t.cancel))
}

fn put_named(out: &mut [u8], at: usize, name: &[u8], n: u64) -> usize {
    let a = put_word(out, at, name);
    put_field(out, a, n, b' ')
}

// The entries, in their order.
fn put_log(out: &mut [u8], at: usize, held: &Held) -> usize {
    let k = put_word(out, at, b"log=");
    put_list(
        out,
        k,
        &held.entries[..held.len.min(held.entries.len())],
        put_entry,
    )
}

fn put_entry(out: &mut [u8], at: usize, x: &ChangedAttr, end: u8) -> usize {
    let numbers = [
        u64::from(x.endpoint),
        u64::from(x.cluster),
        u64::from(x.attr),
        x.identity,
    ];
    put_numbers(out, at, &numbers, b':', end)
}

// The stored ones, in their order.
fn put_stored(out: &mut [u8], at: usize, t: &Table) -> usize {
    let k = put_word(out, at, b"stored=");
    put_list(
        out,
        k,
        &t.places[..t.stored.min(t.places.len())],
        put_subscription,
    )
}

// Each of `xs` as `put` writes it, and a space behind the last, or alone where there is none.
fn put_list<T, F: Fn(&mut [u8], usize, &T, u8) -> usize>(
    out: &mut [u8],
    at: usize,
    xs: &[T],
    put: F,
) -> usize
    requires { F.IsAlwaysCallable put }
{
    if xs.is_empty() {
        return put_word(out, at, b" ");
    }
    let mut k = at;
    for (i, x) in xs.iter().enumerate() {
        k = put(out, k, x, behind(i + 1, xs.len(), b';', b' '));
    }
    k
}

// The open report, if there is one.
fn put_report(out: &mut [u8], at: usize, t: &Table) -> usize {
    let k = put_word(out, at, b"report=");
    match open_ones(t).iter().find(|x| x.reporting) {
        Some(x) => put_open(out, k, x, b' '),
        None => put_word(out, k, b" "),
    }
}

// The primings, in the order of their ids: each is sought by the one before, since a sorted copy would take memory.
fn put_primings(out: &mut [u8], at: usize, t: &Table) -> usize {
    let mut k = put_word(out, at, b"primings=");
    let mut here = priming_after(t, None);
    if here.is_none() {
        return put_word(out, k, b"\r");
    }
    for _ in 0..t.places.len() {
        let Some(x) = here else {
            return k;
        };
        here = priming_after(t, Some(x.id));
        let end = if here.is_some() { b';' } else { b'\r' };
        k = put_open(out, k, x, end);
    }
    k
}

fn put_subscription(out: &mut [u8], at: usize, x: &Subscription, end: u8) -> usize {
    let a = put_terms(out, at, x);
    let numbers = [
        x.reported.ms,
        x.retry.ms,
        u64::from(x.fails),
        x.seen,
        x.heard,
        u64::from(x.rx),
    ];
    put_numbers(out, a, &numbers, b':', end)
}

// Whose it is, and its intervals.
fn put_terms(out: &mut [u8], at: usize, x: &Subscription) -> usize {
    let numbers = [
        u64::from(x.id),
        u64::from(x.fabric),
        x.peer,
        u64::from(x.shortest),
        u64::from(x.longest),
    ];
    put_numbers(out, at, &numbers, b':', b':')
}

// As stored, with what it opened with behind it.
fn put_open(out: &mut [u8], at: usize, x: &Subscription, end: u8) -> usize {
    let a = put_subscription(out, at, x, b'@');
    let numbers = [x.mark, x.events, x.opened.ms];
    put_numbers(out, a, &numbers, b':', end)
}

// The priming with the least id above `last`, or of all.
fn priming_after(t: &Table, last: Option<u32>) -> Option<&Subscription> {
    open_ones(t)
        .iter()
        .filter(|x| !x.reporting && last.is_none_or(|id| id < x.id))
        .min_by_key(|x| x.id)
}

// The open ones, which stand at the far end.
fn open_ones(t: &Table) -> &[Subscription] {
    &t.places[t.places.len() - t.opens.min(t.places.len())..]
}
