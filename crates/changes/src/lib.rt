// The change log: document 01, "Change log". Sixteen entries say which paths have changed, each with the identity of its latest change.
// Every public call refuses a log that isn't well kept and leaves it as it was. Who has seen which change is not known here.
#![tactic(auto)]

ghost use Rattle.std.specs.Prelude.{◌≡◌};
ghost use Rattle.changes.specs.Logs.{empty_log, kept, well_kept, logged, identity_after, fresh_log, noted, purged, cleared, marked, newest_mark, any_told, path_told};

use answers::Entered;
use entries::{ChangedAttr, Rule};
use notes::Held;
use refusal::Refusal;

// The log: the entries that it holds, and the identity that the next note takes. Its layout is C's, so that a host in another language can
// lend one.
#[repr(C)]
#[derive(Clone, Copy, PartialEq, Eq, Debug)]
pub struct ChangedAttrs {
    pub held: Held,
    pub next: u64,
}

impl ChangedAttrs {
    pub fn new() -> Self
        ensures { result ≡ fresh_log }
    {
        empty(1)
    }

    // Whether the log is well kept: at most sixteen entries, and a next identity that isn't 0.
    #[tactic(auto, unfolding(crate::specs::Logs::kept))]
    pub fn is_kept(&self) -> bool
        ensures { result ≡ kept self.now }
    {
        self.held.len <= 16 && self.next != 0
    }

    // The latest identity that was given. Whoever has seen it has seen every change.
    #[tactic(auto, unfolding(crate::specs::Logs::marked, crate::specs::Logs::well_kept, crate::specs::Logs::kept))]
    pub fn watermark(&self) -> Result<u64, Refusal>
        ensures { result ≡ marked self.now }
    {
        self.well_kept()?;
        Ok(self.next.wrapping_sub(1))
    }

    // The greatest identity that an entry has, 0 where there is none. Something has changed since an identity exactly where this is above.
    #[tactic(auto, unfolding(crate::specs::Logs::newest_mark, crate::specs::Logs::well_kept))]
    pub fn newest(&self) -> Result<u64, Refusal>
        ensures { result ≡ newest_mark self.now }
    {
        self.well_kept()?;
        Ok(self.held.newest(Rule::Above(0)))
    }

    // A path has changed. The note takes the next identity, and from now on some entry covers the path with it. A path is three
    // numbers, here and in the calls above, as the Rust has it and a C host hands it over.
    #[tactic(auto, unfolding(crate::specs::Logs::noted, crate::specs::Logs::holding, crate::specs::Logs::well_kept))]
    pub fn note(&mut self, endpoint: u16, cluster: u32, attr: u32) -> Result<Entered, Refusal>
        ensures { logged result self.new ≡ noted self.old endpoint cluster attr }
    {
        self.well_kept()?;
        let identity = self.next;
        self.held = self.held.enter(ChangedAttr {
            identity,
            cluster,
            attr,
            endpoint,
        });
        self.next = next_identity(identity);
        Ok(Entered { identity })
    }

    // Whether the path has changed since the identity.
    #[tactic(auto, unfolding(crate::specs::Logs::path_told, crate::specs::Logs::well_kept))]
    pub fn contains_since(
        &self,
        endpoint: u16,
        cluster: u32,
        attr: u32,
        since: u64,
    ) -> Result<bool, Refusal>
        ensures { result ≡ path_told self.now endpoint cluster attr since }
    {
        self.well_kept()?;
        Ok(
            self.held.any(Rule::Since(ChangedAttr {
                identity: since,
                cluster,
                attr,
                endpoint,
            })),
        )
    }

    // Whether anything has changed since the identity.
    #[tactic(auto, unfolding(crate::specs::Logs::any_told, crate::specs::Logs::well_kept))]
    pub fn any_since(&self, since: u64) -> Result<bool, Refusal>
        ensures { result ≡ any_told self.now since }
    {
        self.well_kept()?;
        Ok(self.held.any(Rule::Above(since)))
    }

    // Entries up to the identity go: everyone has seen them. With 0 nothing happens.
    #[tactic(auto, unfolding(crate::specs::Logs::purged, crate::specs::Logs::holding, crate::specs::Logs::well_kept))]
    pub fn purge_up_to(&mut self, threshold: u64) -> Result<(), Refusal>
        ensures { logged result self.new ≡ purged self.old threshold }
    {
        self.well_kept()?;
        if threshold != 0 {
            self.held = self.held.without(Rule::UpTo(threshold));
        }
        Ok(())
    }

    // Every entry goes: there is nobody to tell.
    #[tactic(auto, unfolding(crate::specs::Logs::cleared, crate::specs::Logs::well_kept))]
    pub fn clear(&mut self) -> Result<(), Refusal>
        ensures { logged result self.new ≡ cleared self.old }
    {
        self.well_kept()?;
        *self = empty(self.next);
        Ok(())
    }

    // Nothing, where the log is well kept.
    #[tactic(auto, unfolding(crate::specs::Logs::well_kept))]
    fn well_kept(&self) -> Result<(), Refusal>
        ensures { result ≡ well_kept self.now }
    {
        if self.is_kept() {
            Ok(())
        } else {
            Err(Refusal::NotWellKept)
        }
    }
}

// A log that holds nothing.
fn empty(next: u64) -> ChangedAttrs
    ensures { result ≡ empty_log next }
{
    ChangedAttrs {
        held: Held {
            entries: [ChangedAttr::BLANK; 16],
            len: 0,
        },
        next,
    }
}

// The identity after another: 0 is skipped, since it says that nothing has been seen.
#[tactic(auto, unfolding(crate::specs::Logs::identity_after))]
fn next_identity(identity: u64) -> u64
    ensures { result ≡ identity_after identity }
{
    match identity.wrapping_add(1) {
        0 => 1,
        next => next,
    }
}
