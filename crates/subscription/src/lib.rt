// One subscription: document 01, module 3. When it may speak, when it must, what it has been told, and what becomes of it when a report ends.
// Everything is decided on one struct by value, and nothing is refused. Of the change log it learns only whether some entry is above its
// seen watermark.
#![tactic(auto)]

ghost use Rattle.std.specs.Prelude.{◌≡◌};
ghost use Rattle.subscription.specs.When.{gate_of, allowed_of, due_of, is_due, pending, along, reportable, next_of, is_over};
ghost use Rattle.subscription.specs.Life.{priming, resumed, opened, gives_up, keeps, stored_with, closed, failed};

use instants::Instant;
use time::KeepAlive;

#[derive(Clone, Copy, PartialEq, Eq, Debug)]
pub struct Subscription {
    pub peer: u64,
    // When the last report reached the subscriber; the last instant says never: document 01's, of which `never_reported` speaks.
    pub reported: Instant,
    // Before this a report that failed is not tried again.
    pub retry: Instant,
    // The watermark and the event number that the subscriber has been told.
    pub seen: u64,
    pub heard: u64,
    // The watermark, the event number and the instant with which its open report or priming opened; blank while it is stored, and fields of
    // their own, as document 01's records have them.
    pub mark: u64,
    pub events: u64,
    pub opened: Instant,
    pub id: u32,
    pub shortest: u16,
    pub longest: u16,
    // The number of its request bytes.
    pub rx: u16,
    pub fabric: u8,
    // Failures in a row.
    pub fails: u8,
    // Of an open one: whether it is the report, and not a priming.
    pub reporting: bool,
}

// What a new subscription brings.
#[derive(Clone, Copy, PartialEq, Eq, Debug)]
pub struct Request {
    pub peer: u64,
    pub shortest: u16,
    pub longest: u16,
    pub rx: u16,
    pub fabric: u8,
}

// What a report is asked for with: the instant, the number of the latest event, the keep-alive kind and whether all go along.
#[derive(Clone, Copy, PartialEq, Eq, Debug)]
pub struct Settings {
    pub now: Instant,
    pub events: u64,
    pub kind: KeepAlive,
    pub all: bool,
}

// Outcomes of a report, by document 01's numbers. No enum, since `complete` takes every u8 for an outcome and refuses those that are none.
pub const SENT: u8 = 0;

pub const UNSENT: u8 = 1;

pub const RETRY: u8 = 2;

pub const FAILED: u8 = 3;

pub const ABANDONED: u8 = 4;

impl Subscription {
    // What stands in a place that holds no subscription.
    pub const BLANK: Subscription = Subscription {
        peer: 0,
        reported: Instant::FIRST,
        retry: Instant::FIRST,
        seen: 0,
        heard: 0,
        mark: 0,
        events: 0,
        opened: Instant::FIRST,
        id: 0,
        shortest: 0,
        longest: 0,
        rx: 0,
        fabric: 0,
        fails: 0,
        reporting: false,
    };

    // A fresh priming. It has seen every change so far, since its priming report tells everything, and no event. It opens as a report does.
    #[tactic(auto, unfolding(crate::specs::Life::priming, crate::specs::Life::resumed, crate::specs::Life::opened))]
    pub fn primed(request: Request, id: u32, mark: u64, events: u64, now: Instant) -> Self
        ensures { result ≡ priming request id mark events now }
    {
        let unheard = Self::resumed(request, id, mark, 0);
        Self {
            reporting: false,
            ..unheard.handed_out(mark, events, now)
        }
    }

    // One that a restart brings back: stored, and never reported since.
    #[tactic(auto, unfolding(crate::specs::Life::resumed))]
    pub fn resumed(request: Request, id: u32, mark: u64, events: u64) -> Self
        ensures { result ≡ resumed request id mark events }
    {
        Self {
            peer: request.peer,
            reported: Instant::LAST,
            seen: mark,
            heard: events,
            id,
            shortest: request.shortest,
            longest: request.longest,
            rx: request.rx,
            fabric: request.fabric,
            ..Self::BLANK
        }
    }

    // When the minimum interval lets a report through.
    #[tactic(auto, unfolding(crate::specs::When::gate_of))]
    pub fn min_int_gate(self) -> Instant
        ensures { result ≡ gate_of self }
    {
        time::min_int_gate(self.reported, self.shortest)
    }

    // When a report is allowed: neither the minimum interval nor a retry holds it back.
    #[tactic(auto, unfolding(crate::specs::When::allowed_of))]
    pub fn report_allowed_at(self) -> Instant
        ensures { result ≡ allowed_of self }
    {
        self.min_int_gate().max(self.retry)
    }

    // When a report goes out though there is nothing to tell.
    #[tactic(auto, unfolding(crate::specs::When::due_of))]
    pub fn report_due_at(self, kind: KeepAlive) -> Instant
        ensures { result ≡ due_of self kind }
    {
        time::report_due_at(self.reported, self.longest, kind)
    }

    #[tactic(auto, unfolding(crate::specs::When::is_due))]
    pub fn is_report_due(self, now: Instant, kind: KeepAlive) -> bool
        ensures { result ≡ is_due self now kind }
    {
        self.report_due_at(kind) <= now
    }

    // Whether there is something to tell. `changed` says that some entry of the log is above the seen watermark.
    #[tactic(auto, unfolding(crate::specs::When::pending))]
    pub fn is_pending(self, changed: bool, events: u64) -> bool
        ensures { result ≡ pending self changed events }
    {
        changed || self.heard < events
    }

    // Whether a report goes out at the settings. With `all`, whoever is allowed to and has not reported at this instant goes along.
    #[tactic(auto, unfolding(crate::specs::When::reportable))]
    pub fn is_reportable(self, at: Settings, changed: bool) -> bool
        ensures { result ≡ reportable self at.now changed at.events at.kind at.all }
    {
        self.report_allowed_at() <= at.now
            && (self.goes_along(at.now, at.all)
                || self.is_report_due(at.now, at.kind)
                || self.is_pending(changed, at.events))
    }

    // The earliest instant at which it could report next.
    #[tactic(auto, unfolding(crate::specs::When::next_of))]
    pub fn next_report_at(self, changed: bool, events: u64, kind: KeepAlive) -> Instant
        ensures { result ≡ next_of self changed events kind }
    {
        let allowed = self.report_allowed_at();
        if self.is_pending(changed, events) {
            allowed
        } else {
            allowed.max(self.report_due_at(kind))
        }
    }

    #[tactic(auto, unfolding(crate::specs::When::is_over))]
    pub fn is_expired(self, now: Instant) -> bool
        ensures { result ≡ is_over self now }
    {
        time::is_expired(self.reported, self.longest, now)
    }

    // Handed out: its report opens with the present watermark, event number and instant. What it has seen stays until the report has ended.
    #[tactic(auto, unfolding(crate::specs::Life::opened))]
    pub fn handed_out(self, mark: u64, events: u64, now: Instant) -> Self
        ensures { result ≡ opened self mark events now }
    {
        Self {
            mark,
            events,
            opened: now,
            reporting: true,
            ..self
        }
    }

    // Whether it is stored again after the outcome: not where the report failed for good or was abandoned, nor where it is given up.
    #[tactic(auto, unfolding(crate::specs::Life::keeps))]
    pub fn is_kept(self, outcome: u8) -> bool
        ensures { result ≡ keeps self outcome }
    {
        !self.is_given_up(outcome) && outcome <= RETRY
    }

    // Whether the outcome tells that the subscriber has gone quiet.
    #[tactic(auto, unfolding(crate::specs::Life::failed))]
    pub fn has_failed(self, outcome: u8) -> bool
        ensures { result ≡ failed self outcome }
    {
        outcome == FAILED || (outcome == RETRY && !self.is_given_up(outcome))
    }

    // As it is stored after the outcome. Where a report was sent, or found empty, what it opened with has been seen, and not what is there
    // by now: a note made meanwhile is still to be told.
    #[tactic(auto, unfolding(crate::specs::Life::closed))]
    pub fn close(self, outcome: u8) -> Self
        ensures { result ≡ closed self outcome }
    {
        match outcome {
            RETRY => {
                let fails = self.fails.saturating_add(1);
                let retry = time::retry_at(self.opened, fails, self.longest);
                self.stored(self.reported, retry, fails, self.seen, self.heard)
            }
            UNSENT => self.stored(self.reported, Instant::FIRST, 0, self.mark, self.events),
            _ => self.stored(self.opened, Instant::FIRST, 0, self.mark, self.events),
        }
    }

    #[tactic(auto, unfolding(crate::specs::When::along))]
    fn goes_along(self, now: Instant, all: bool) -> bool
        ensures { result ≡ along self now all }
    {
        all && self.reported < now
    }

    // Stored again, with blank opening values.
    #[tactic(auto, unfolding(crate::specs::Life::stored_with))]
    fn stored(self, reported: Instant, retry: Instant, fails: u8, seen: u64, heard: u64) -> Self
        ensures { result ≡ stored_with self reported retry fails seen heard }
    {
        Self {
            reported,
            retry,
            fails,
            seen,
            heard,
            mark: 0,
            events: 0,
            opened: Instant::FIRST,
            reporting: false,
            ..self
        }
    }

    // A retry of a subscription that has never reported would be a retry for ever: a resumed one whose subscriber is gone.
    #[tactic(auto, unfolding(crate::specs::Life::gives_up))]
    fn is_given_up(self, outcome: u8) -> bool
        ensures { result ≡ gives_up self outcome }
    {
        outcome == RETRY && self.reported.is_never()
    }
}
