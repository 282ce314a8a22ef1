// Instants: document 01, "Time". A sum past the last instant is none, and what that means is not the same for all: whoever
// meets it answers it in the open. Intervals and what they are for is crate time's matter.
#![tactic(auto)]

ghost use Rattle.std.specs.Prelude.{◌≡◌};
ghost use Rattle.instants.specs.Instants.{instant, later, later_of, never_reported};

// A moment, in milliseconds since the device started.
#[derive(Clone, Copy, PartialEq, Eq, PartialOrd, Ord, Debug)]
pub struct Instant {
    pub ms: u64,
}

impl Instant {
    pub const FIRST: Instant = Instant { ms: 0 };

    pub const LAST: Instant = Instant { ms: u64::MAX };

    pub fn at(ms: u64) -> Self
        ensures { result ≡ instant ms }
    {
        Self { ms }
    }

    // The instant that lies so many seconds after this one, if there is one.
    #[tactic(auto, unfolding(crate::specs::Instants::later))]
    pub fn checked_add(self, secs: u16) -> Option<Instant>
        ensures { result ≡ later self secs }
    {
        self.ms.checked_add(u64::from(secs) * 1000).map(Instant::at)
    }

    // The later one. A method of the type, since the contract names `later_of`.
    pub fn max(self, other: Instant) -> Self
        ensures { result ≡ later_of self other }
    {
        if self <= other { other } else { self }
    }

    // Whether this, as the instant of a last report, says that there has been none.
    pub fn is_never(self) -> bool
        ensures { result ≡ never_reported self }
    {
        self == Self::LAST
    }
}
