// Intervals and the instants that they lead to: document 01, "Time". Everything here takes every argument and nothing is refused. A sum past
// the last instant is answered in the open: gate and due at once, retry at the last instant, expiry never.
#![tactic(auto)]

ghost use Rattle.std.specs.Prelude.{◌≡◌};
ghost use Rattle.time.specs.Intervals.{keep_alive_of, backoff_secs, due_after_secs, icd_max_secs, granted_max_secs};
ghost use Rattle.time.specs.Moments.{gate_at, due_at, since_report, retry_at, expired};

use instants::Instant;

// When a subscription with nothing to report reports anyway, to keep itself alive.
#[derive(Clone, Copy, PartialEq, Eq, Debug)]
pub enum KeepAlive {
    // Halfway through its maximum interval.
    Default,
    // An intermittently connected device: shortly before its maximum interval runs out, which is when it wakes up anyway.
    Icd,
}

impl KeepAlive {
    // How long before the maximum interval runs out such a device reports: time to wake up, resume a session and repeat a message or two.
    pub const ICD_LEAD_SECS: u16 = 3;

    pub fn of(icd: bool) -> Self
        ensures { result ≡ keep_alive_of icd }
    {
        if icd { Self::Icd } else { Self::Default }
    }

    // How long after its last report a subscription with nothing to report reports anyway.
    #[tactic(auto, unfolding(crate::specs::Intervals::due_after_secs))]
    pub fn due_after_secs(self, longest: u16) -> u16
        ensures { result ≡ due_after_secs self longest }
    {
        let half = longest / 2;
        match self {
            Self::Default => longest - half,
            Self::Icd => longest - Self::ICD_LEAD_SECS.min(half),
        }
    }
}

// When the subscriber's minimum interval lets the next report through.
pub fn min_int_gate(reported: Instant, shortest: u16) -> Instant
    ensures { result ≡ gate_at reported shortest }
{
    since_report(reported, shortest)
}

// When a report goes out though there is nothing to tell.
pub fn report_due_at(reported: Instant, longest: u16, kind: KeepAlive) -> Instant
    ensures { result ≡ due_at reported longest kind }
{
    since_report(reported, kind.due_after_secs(longest))
}

// When a report that failed may be tried again, from the instant at which it was opened.
#[tactic(auto, unfolding(crate::specs::Moments::retry_at))]
pub fn retry_at(opened: Instant, fails: u8, longest: u16) -> Instant
    ensures { result ≡ retry_at opened fails longest }
{
    opened
        .checked_add(retry_backoff_secs(fails, longest))
        .unwrap_or(Instant::LAST)
}

// Whether the maximum interval has run out since the last report that reached the subscriber.
#[tactic(auto, unfolding(crate::specs::Moments::expired))]
pub fn is_expired(reported: Instant, longest: u16, now: Instant) -> bool
    ensures { result ≡ expired reported longest now }
{
    reported
        .checked_add(longest)
        .is_some_and(|expiry| expiry <= now)
}

// The first pause, in seconds: short enough to get over a blip, long enough not to hammer a peer that is gone.
const BASE_SECS: u16 = 2;

// The pause before a failed report is tried again: it doubles with each failure in a row, and is never longer than the subscription may
// stay silent, since it then expires anyway. That is sixteen bits, and the cast loses nothing.
pub fn retry_backoff_secs(fails: u8, longest: u16) -> u16
    ensures { result ≡ backoff_secs fails longest }
{
    let delay = u32::from(BASE_SECS) << fails.saturating_sub(1).min(15);
    delay.min(u32::from(longest.max(BASE_SECS))) as u16
}

// The maximum interval that an intermittently connected device grants: its idle time, so that it wakes up no more often than it does anyway,
// but with room after the subscriber's minimum for the report that keeps the subscription alive.
#[tactic(auto, unfolding(crate::specs::Intervals::icd_max_secs))]
pub fn icd_max_int_secs(idle: u32, floor: u16) -> u16
    ensures { result ≡ icd_max_secs idle floor }
{
    let room = u32::from(floor) + u32::from(KeepAlive::ICD_LEAD_SECS);
    u16::try_from(idle.max(room)).unwrap_or(u16::MAX)
}

// What is kept free after the subscriber's minimum, so that a report which it held back still goes out in time.
const FLOOR_LEAD_SECS: u16 = 10;

// The maximum interval that any other device grants: what the subscriber asks for, within the configured bounds, but with room after the
// subscriber's minimum for a report.
#[tactic(auto, unfolding(crate::specs::Intervals::granted_max_secs))]
pub fn subscription_max_int_secs(request: u16, floor: u16, lower: u16, upper: u16) -> u16
    ensures { result ≡ granted_max_secs request floor lower upper }
{
    let room = floor.saturating_add(FLOOR_LEAD_SECS);
    request.min(upper).max(lower).max(room)
}

// So many seconds after the last report. Where there was none, or no such instant is left, it has come already: a gate that never opened,
// or a report that never fell due, would leave a subscriber waiting for ever.
#[tactic(auto, unfolding(crate::specs::Moments::since_report))]
fn since_report(reported: Instant, secs: u16) -> Instant
    ensures { result ≡ since_report reported secs }
{
    if reported.is_never() {
        return Instant::FIRST;
    }
    reported.checked_add(secs).unwrap_or(Instant::FIRST)
}
