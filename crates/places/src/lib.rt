// The table of subscriptions as it lies in memory: document 01, "Table". Eighty places in one array: the stored ones in front, in their
// order, the open ones at the far end, the newest first. Here is what a call answers and what it leaves, place by place in specs/, and that
// this is the machine's step at the state that the table stands for, in proofs/. No code: that is crate table's.
#![tactic(auto)]

use changes::ChangedAttrs;
use subscription::Subscription;

#[derive(Clone, Copy, PartialEq, Eq, Debug)]
pub struct Table {
    // The stored ones are the first `stored`, the open ones the last `opens`; a place between them is blank. The memory is fixed: the core
    // has no heap.
    pub places: [Subscription; 80],
    pub log: ChangedAttrs,
    pub stored: usize,
    pub opens: usize,
    // The id that the next admission takes.
    pub next: u32,
    pub capacity: u8,
    // The reason with which the open report was cancelled, 0 for none: document 01's number, of which `stays_after` speaks.
    pub cancel: u8,
}

// What a completion is told: whether the subscription is stored again, and whether its subscriber has gone quiet.
#[derive(Clone, Copy, Debug, PartialEq, Eq)]
pub struct Ended {
    pub kept: bool,
    pub failed: bool,
}

// What a note is told: its identity, and that it wakes whoever waits.
#[derive(Clone, Copy, Debug, PartialEq, Eq)]
pub struct Heard {
    pub identity: u64,
    pub wakes: bool,
}

// Whom a report is handed out to: the id, and the number of its request bytes.
#[derive(Clone, Copy, Debug, PartialEq, Eq)]
pub struct Handed {
    pub id: u32,
    pub rx: u16,
}

// Counted places, the stored of a fabric, and the ids given so far.
#[derive(Clone, Copy, Debug, PartialEq, Eq)]
pub struct Load {
    pub places: usize,
    pub fabric: usize,
    pub established: u32,
}
