// One entry of the change log: document 01, "Change log". When an entry covers another, which entries a scan is after, and the coarser
// entry that a group of them becomes. The array that holds them is crate notes' matter.
#![tactic(auto)]

ghost use Rattle.std.specs.Prelude.{◌≡◌};
ghost use Rattle.entries.specs.Paths.{field_covers, field_matches, covers, matches, candidate, holds};

// One entry: a path, and the identity of its latest change. A wild field stands for every value of it. Its layout is C's, as the log's, so
// that a host in another language can lend one.
#[repr(C)]
#[derive(Clone, Copy, PartialEq, Eq, Debug)]
pub struct ChangedAttr {
    pub identity: u64,
    pub cluster: u32,
    pub attr: u32,
    pub endpoint: u16,
}

// Which entries a scan is after. An enum and no closure: the definitions and `Held`'s public methods name the five.
#[derive(Clone, Copy, PartialEq, Eq, Debug)]
pub enum Rule {
    // Those that cover the entry.
    Over(ChangedAttr),
    // Those that the entry covers.
    Under(ChangedAttr),
    // Those with an identity up to the number.
    UpTo(u64),
    // Those with an identity above the number.
    Above(u64),
    // Those that match the entry's path and have an identity above the entry's.
    Since(ChangedAttr),
}

// How coarse a group is.
#[derive(Clone, Copy, PartialEq, Eq, Debug)]
pub enum Level {
    // All attributes of one cluster on one endpoint.
    Cluster,
    // All attributes of all clusters on one endpoint.
    Endpoint,
}

impl Rule {
    // Whether the entry is one of those.
    #[tactic(auto, unfolding(crate::specs::Paths::over, crate::specs::Paths::under, crate::specs::Paths::up_to, crate::specs::Paths::above, crate::specs::Paths::since))]
    pub fn meets(self, x: ChangedAttr) -> bool
        ensures { result ≡ holds self x }
    {
        match self {
            Rule::Over(e) => x.covers(e),
            Rule::Under(e) => e.covers(x),
            Rule::UpTo(t) => x.identity <= t,
            Rule::Above(s) => s < x.identity,
            Rule::Since(e) => e.identity < x.identity && x.matches(e),
        }
    }
}

impl ChangedAttr {
    // The values that stand for every endpoint, cluster and attribute. No device has such an id.
    pub const WILD: ChangedAttr = ChangedAttr {
        identity: 0,
        cluster: u32::MAX,
        attr: u32::MAX,
        endpoint: u16::MAX,
    };

    // What stands in a place that holds no entry.
    pub const BLANK: ChangedAttr = ChangedAttr {
        identity: 0,
        cluster: 0,
        attr: 0,
        endpoint: 0,
    };

    // The entry of this one's group at the level. An entry that is as coarse already has none.
    #[tactic(auto, unfolding(crate::specs::Paths::candidate))]
    pub fn coarsen(self, level: Level) -> Option<ChangedAttr>
        ensures { result ≡ candidate level self }
    {
        let wild = Self::WILD;
        if self.endpoint == wild.endpoint {
            return None;
        }
        match level {
            Level::Cluster if self.cluster == wild.cluster => None,
            Level::Cluster => Some(ChangedAttr {
                identity: 0,
                attr: wild.attr,
                ..self
            }),
            Level::Endpoint => Some(ChangedAttr {
                endpoint: self.endpoint,
                ..wild
            }),
        }
    }

    // Whether whoever hears of this entry hears of the other's path too.
    #[tactic(auto, unfolding(crate::specs::Paths::covers))]
    fn covers(self, other: ChangedAttr) -> bool
        ensures { result ≡ covers self other }
    {
        let wild = Self::WILD;
        field_covers(
            wild.endpoint.into(),
            self.endpoint.into(),
            other.endpoint.into(),
        ) && field_covers(wild.cluster, self.cluster, other.cluster)
            && field_covers(wild.attr, self.attr, other.attr)
    }

    // Whether the path is among those that this entry stands for. Document 01 has two sentences; that they are one is `matches_covers`.
    #[tactic(auto, unfolding(crate::specs::Paths::matches))]
    fn matches(self, path: ChangedAttr) -> bool
        ensures { result ≡ matches self path }
    {
        let wild = Self::WILD;
        field_matches(
            wild.endpoint.into(),
            self.endpoint.into(),
            path.endpoint.into(),
        ) && field_matches(wild.cluster, self.cluster, path.cluster)
            && field_matches(wild.attr, self.attr, path.attr)
    }
}

// By `if`, and not as one expression: that is computed whole, and took half as long again where a note looks for what it covers.
#[tactic(auto, unfolding(crate::specs::Paths::field_covers))]
fn field_covers(wild: u32, a: u32, b: u32) -> bool
    ensures { result ≡ field_covers wild a b }
{
    if a == wild {
        return true;
    }
    if b == wild {
        return false;
    }
    a == b
}

#[tactic(auto, unfolding(crate::specs::Paths::field_matches))]
fn field_matches(wild: u32, a: u32, b: u32) -> bool
    ensures { result ≡ field_matches wild a b }
{
    a == wild || a == b
}
