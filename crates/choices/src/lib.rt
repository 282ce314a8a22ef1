// Which subscriptions a removal takes: document 01, "Table". The removal itself is crate table's matter.
#![tactic(auto)]

ghost use Rattle.std.specs.Prelude.{◌≡◌};
ghost use Rattle.choices.specs.Choices.{chosen};

use instants::Instant;
use subscription::Subscription;

// Which subscriptions a removal takes. An enum and no closure: document 01 lists them, and a caller hands one over as an argument.
#[derive(Clone, Copy, PartialEq, Eq, Debug)]
pub enum Choice {
    All,
    Fabric(u8),
    Peer(u8, u64),
    Id(u32),
    ExpiredAt(Instant),
}

impl Choice {
    #[tactic(auto, unfolding(crate::specs::Choices::chosen))]
    pub fn takes(self, s: Subscription) -> bool
        ensures { result ≡ chosen self s }
    {
        match self {
            Self::All => true,
            Self::Fabric(fabric) => s.fabric == fabric,
            Self::Peer(fabric, peer) => s.fabric == fabric && s.peer == peer,
            Self::Id(id) => s.id == id,
            Self::ExpiredAt(now) => s.is_expired(now),
        }
    }
}
