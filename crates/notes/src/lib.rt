// The entries that a log holds, in an array, and what a note does to them: document 01, "Change log". A length beyond the array counts all
// of it, so that every call is safe. Which identity a note takes, and which log is refused, is crate changes' matter.
#![tactic(auto)]

ghost use Rattle.std.specs.Prelude.{◌≡◌, List, [], ◌∷◌, ◌++◌, ◌≤◌, ◌<◌, length, take, set, get_or, position, max, fold, map, filter};
ghost use Rattle.std.specs.List.{list_any};
ghost use Rattle.lists.specs.Search.{count};
ghost use Rattle.lists.specs.Removal.{sweep};
ghost use Rattle.entries.specs.declared.ChangedAttr.{ChangedAttr};
ghost use Rattle.entries.specs.Paths.{blank, all_wild, with_identity, under, holds};
ghost use Rattle.notes.specs.Notes.{placed, group_of, larger, largest, folded, crowded, entered};
ghost use Rattle.notes.specs.Places.{listed, held_as, any_held, newest_held, held_without, held_after};

use entries::{ChangedAttr, Level, Rule};
use std::marker::Model;
use sweeping::sweep;

// The entries are the first `len` of sixteen places. The layout is C's, so that a host in another language can lend one.
#[repr(C)]
#[derive(Clone, Copy, PartialEq, Eq, Debug)]
pub struct Held {
    pub entries: [ChangedAttr; 16],
    pub len: usize,
}

impl Held {
    // Whether some entry meets the rule.
    pub fn any(self, rule: Rule) -> bool
        ensures { result ≡ any_held rule self }
    {
        any_of(Entries::of(self).live(), rule)
    }

    // The greatest identity among the entries that meet the rule, or 0.
    pub fn newest(self, rule: Rule) -> u64
        ensures { result ≡ newest_held rule self }
    {
        newest_of(Entries::of(self).live(), rule)
    }

    // The entries that do not meet the rule, with blank places beyond them.
    pub fn without(self, rule: Rule) -> Self
        ensures { result ≡ held_without rule self }
    {
        let mut entries = Entries::of(self);
        entries.sweep(rule);
        entries.tidied()
    }

    // The entries after a note, with blank places beyond them.
    pub fn enter(self, new: ChangedAttr) -> Self
        ensures { result ≡ held_after new self }
    {
        let mut entries = Entries::of(self);
        entries.record_raw(new);
        entries.tidied()
    }
}

// The entries that are held, in order: a list to all that is said of it, in an array of which a length says how much is in use.
#[derive(Drop)]
struct Entries {
    places: [ChangedAttr; 16],
    len: usize,
}

impl Model for Entries {
    ghost Value = { List ChangedAttr };

    ghost view = { λ e. take e.len e.places };

    ghost invariant = { λ e. e.len ≤ 16 };
}

impl Entries {
    // A length beyond the array counts all of it.
    fn of(held: Held) -> Self
        ensures { result ≡ listed held }
    {
        let places = held.entries;
        let len = held.len.min(16);
        Entries { places, len }
    }

    // The entries as a slice; there are at most sixteen.
    fn live(&self) -> &[ChangedAttr]
        ensures all { result.now ≡ self.now }
        ensures few { length self.now ≤ 16 }
    {
        &self.places[..self.len]
    }

    // Blank places beyond the entries, so that equal entries are held in equal arrays.
    fn tidied(mut self) -> Held
        ensures { result ≡ held_as self }
    {
        let len = self.len;
        self.places[len..].fill(ChangedAttr::BLANK);
        let entries = self.places;
        Held { entries, len }
    }

    // The note among the entries: the first one that covers it takes its identity; else those that it covers make way for it.
    fn record_raw(&mut self, new: ChangedAttr)
        ensures { self.new ≡ entered new self.old }
    {
        if let Some(at) = find(self.live(), Rule::Over(new)) {
            self.refresh(at, new.identity);
            return;
        }
        self.sweep(Rule::Under(new));
        if self.live().len() < 16 {
            self.push(new);
            return;
        }
        self.promote_and_insert(new)
    }

    // The note into a full array: the largest group of the finest level that has one becomes one entry, and there is room. Without a
    // group one entry says that everything has changed. The definition has a case for each of the two levels, and so has this.
    fn promote_and_insert(&mut self, new: ChangedAttr)
        ensures { self.new ≡ crowded new self.old }
    {
        let fine = largest_group(self.live(), Level::Cluster);
        if 1 < fine.size {
            self.promote(fine.by);
            self.insert(new);
            return;
        }
        let coarse = largest_group(self.live(), Level::Endpoint);
        if 1 < coarse.size {
            self.promote(coarse.by);
            self.insert(new);
            return;
        }
        self.stand_for_all(new.identity)
    }

    // The note where there is room and no entry that it covers.
    fn insert(&mut self, new: ChangedAttr)
        requires { length self.old < 16 }
        ensures { self.new ≡ placed new self.old }
    {
        match find(self.live(), Rule::Over(new)) {
            Some(at) => self.refresh(at, new.identity),
            None => self.push(new),
        }
    }

    // The entries that the coarser one covers become that one, with their greatest identity.
    fn promote(&mut self, by: ChangedAttr)
        requires { 1 < count (under by) self.old }
        ensures { self.new ≡ folded by self.old }
    {
        let identity = newest_of(self.live(), Rule::Under(by));
        self.sweep(Rule::Under(by));
        self.push(ChangedAttr { identity, ..by })
    }

    // Without the entries that meet the rule: the last entry fills each hole and is looked at next.
    fn sweep(&mut self, rule: Rule)
        ensures { self.new ≡ sweep (holds rule) self.old }
    {
        let len = self.len;
        self.len = sweep(&mut self.places[..len], |x| rule.meets(*x));
    }

    // The entry takes the identity. What a reborrow of the places tells of the store is what the proof cites.
    fn refresh(&mut self, at: usize, identity: u64)
        requires { at < length self.old }
        ensures { self.new ≡ set self.old at (with_identity identity (get_or self.old at blank)) }
    {
        let places = &mut self.places;
        places[at].identity = identity;
    }

    // The entry goes at the end.
    fn push(&mut self, new: ChangedAttr)
        requires { length self.old < 16 }
        ensures { self.new ≡ self.old ++ (new ∷ []) }
    {
        self.places[self.len] = new;
        self.len += 1;
    }

    // One entry that covers everything.
    fn stand_for_all(&mut self, identity: u64)
        ensures { self.new ≡ all_wild identity ∷ [] }
    {
        self.places[0] = ChangedAttr {
            identity,
            ..ChangedAttr::WILD
        };
        self.len = 1;
    }
}

// A coarser entry, and how many entries it covers. One of size 0 or 1 stands for no group: `larger` and `largest` compare sizes.
#[derive(Clone, Copy)]
pub struct Group {
    pub by: ChangedAttr,
    pub size: usize,
}

// Whether some entry meets the rule.
fn any_of(entries: &[ChangedAttr], rule: Rule) -> bool
    ensures { result ≡ list_any (holds rule) entries.now }
{
    entries.iter().any(|x| rule.meets(*x))
}

// The place of the first entry that meets the rule.
fn find(entries: &[ChangedAttr], rule: Rule) -> Option<usize>
    ensures { result ≡ position (holds rule) entries.now }
{
    entries.iter().position(|x| rule.meets(*x))
}

// How many entries meet the rule.
#[tactic(auto, using(lists::proofs::Library::count_filter))]
fn tally(entries: &[ChangedAttr], rule: Rule) -> usize
    ensures { result ≡ count (holds rule) entries.now }
{
    entries.iter().filter(|x| rule.meets(**x)).count()
}

// The greatest identity of the entries that meet the rule, or 0, in the words of its chain; `newest_is` leads to document 01's.
fn newest_of(entries: &[ChangedAttr], rule: Rule) -> u64
    ensures { result ≡ fold max 0 (map (λ (x : ChangedAttr). x.identity) (filter (holds rule) entries.now)) }
{
    entries
        .iter()
        .filter(|x| rule.meets(**x))
        .map(|x| x.identity)
        .fold(0, |most, identity| most.max(identity))
}

// The group of an entry at the level; one of no size where it has none.
#[tactic(auto, unfolding(crate::specs::Notes::group_of))]
fn group_of(entries: &[ChangedAttr], level: Level, x: ChangedAttr) -> Group
    ensures { result ≡ group_of level entries.now x }
{
    match x.coarsen(level) {
        Some(by) => Group {
            by,
            size: tally(entries, Rule::Under(by)),
        },
        None => Group {
            by: ChangedAttr::BLANK,
            size: 0,
        },
    }
}

// The larger group, the earlier one on a tie.
#[tactic(auto, unfolding(crate::specs::Notes::larger))]
fn larger_group(a: Group, b: Group) -> Group
    ensures { result ≡ larger a b }
{
    if a.size < b.size { b } else { a }
}

// The largest group at the level; one of size 1 where none covers two entries.
#[tactic(auto, unfolding(crate::specs::Notes::largest, crate::specs::Notes::largest_from))]
fn largest_group(entries: &[ChangedAttr], level: Level) -> Group
    ensures { result ≡ largest level entries.now }
{
    let none = Group {
        by: ChangedAttr::BLANK,
        size: 1,
    };
    entries.iter().fold(none, |best, x| {
        larger_group(best, group_of(entries, level, *x))
    })
}
