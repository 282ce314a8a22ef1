// The line of one subscription that stands in no table: what is decided about it alone, against the present log.
use super::replies::{Reply, told};
use super::words::{narrow, read};
use answers::{flag, is_yes};
use changes::ChangedAttrs;
use fields::PLACES;
use instants::Instant;
use lines::{BITS8, BITS16, BITS64, FLAG};
use subscription::{Settings, Subscription};
use time::KeepAlive;

// The intervals, the last report, the retry, the failures and what it has seen; then instant, events and two flags.
const SINGLE: [u64; 11] = [
    BITS16, BITS16, BITS64, BITS64, BITS8, BITS64, BITS64, BITS64, BITS64, FLAG, FLAG,
];

// The answer to the line `s` with the log.
pub(crate) fn answer(log: &ChangedAttrs, s: &[u8]) -> Reply {
    if let Some(rest) = s.strip_prefix(b"single,") {
        return single(log, read(rest, &SINGLE)?);
    }
    super::times::answer(s)
}

fn single(log: &ChangedAttrs, v: [u64; PLACES]) -> Reply {
    let x = subscription(v);
    let at = Settings {
        now: Instant::at(v[7]),
        events: v[8],
        kind: KeepAlive::of(v[9] == FLAG),
        all: v[10] == FLAG,
    };
    decided(x, at, is_yes(log.any_since(v[5])))
}

// Allowed, due, change pending, event pending, reportable, next instant.
fn decided(x: Subscription, at: Settings, changed: bool) -> Reply {
    told(&[
        x.report_allowed_at().ms,
        x.report_due_at(at.kind).ms,
        flag(x.is_pending(changed, 0)),
        flag(x.is_pending(false, at.events)),
        flag(x.is_reportable(at, changed)),
        x.next_report_at(changed, at.events, at.kind).ms,
    ])
}

// With no name and no peer, since no decision asks for them.
fn subscription(v: [u64; PLACES]) -> Subscription {
    Subscription {
        shortest: narrow(v[0]),
        longest: narrow(v[1]),
        reported: Instant::at(v[2]),
        retry: Instant::at(v[3]),
        fails: narrow(v[4]),
        seen: v[5],
        heard: v[6],
        ..Subscription::BLANK
    }
}
