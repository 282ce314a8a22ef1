// The well-kept test's parts: the counts, what is asked of the live ones, and the cancel reason.
ghost use Rattle.std.specs.Prelude.{◌≡◌, ◌+◌, ◌≤◌, ◌&&◌, ◌||◌, ◌==◌, ◌++◌, nat_le, nat_lt, map, drop, length};
ghost use Rattle.std.specs.List.{list_any};
ghost use Rattle.lists.specs.Search.{count};
ghost use Rattle.subscription.specs.declared.Subscription.{Subscription};
ghost use Rattle.rules.specs.States.{capacity_fits, is_report, fabric_zero};
ghost use Rattle.table.specs.Scans.{Lived, sound};

use super::PLACES;
use subscription::Subscription;

// Whether the live ones have different ids and a fabric each, at most one report is open, and a cancel reason is there only with it. That
// there are at most eighty is tested before, and no fact of two slices.
pub(crate) fn is_sound(stored: &[Subscription], opens: &[Subscription], cancel: u8) -> bool
    requires { length stored.now + length opens.now ≤ 80 }
    ensures { result ≡ sound stored.now opens.now cancel }
{
    let lives = lives(stored, opens);
    distinct::all_differ(&lives.ids[..stored.len() + opens.len()])
        && (!lives.orphan && cancel_fits(lives.reports, cancel))
}

// What is asked of the live ones. The memory of the ids is fixed: the core has no heap.
#[derive(Clone, Copy)]
struct Live {
    ids: [u32; PLACES],
    orphan: bool,
    reports: usize,
}

// The ids of the live ones, whether one has no fabric, and how many of the open ones are reports.
fn lives(stored: &[Subscription], opens: &[Subscription]) -> Live
    requires { length stored.now + length opens.now ≤ 80 }
    ensures { Lived stored.now opens.now result }
{
    let mut ids = [0; PLACES];
    copy_ids(&mut ids, stored);
    copy_ids(&mut ids[stored.len()..], opens);
    Live {
        ids,
        orphan: any_orphan(stored) || any_orphan(opens),
        reports: count_reports(opens),
    }
}

// The ids of the subscriptions into the first places.
fn copy_ids(ids: &mut [u32], xs: &[Subscription])
    requires { length xs.now ≤ length ids.old }
    ensures { ids.new ≡ map (λ (x : Subscription). x.id) xs.now ++ drop (length xs.now) ids.old }
{
    for (i, x) in xs.iter().enumerate() {
        ids[i] = x.id;
    }
}

// Whether one has no fabric.
fn any_orphan(xs: &[Subscription]) -> bool
    ensures { result ≡ list_any fabric_zero xs.now }
{
    xs.iter().any(|x| x.fabric == 0)
}

#[tactic(auto, using(lists::proofs::Library::count_filter))]
fn count_reports(xs: &[Subscription]) -> usize
    ensures { result ≡ count is_report xs.now }
{
    xs.iter().filter(|x| x.reporting).count()
}

// Whether the capacity is one, and the counts are within it.
pub(crate) fn within(capacity: u8, stored: usize, opens: usize) -> bool
    ensures { result ≡ (capacity_fits capacity && nat_le (stored + opens) capacity) }
{
    1 <= capacity
        && capacity <= 80
        && stored
            .checked_add(opens)
            .is_some_and(|live| live <= usize::from(capacity))
}

// At most one report is open, and a cancel reason is there only with it.
fn cancel_fits(reports: usize, cancel: u8) -> bool
    ensures { result ≡ (nat_le reports 1 && (cancel == 0 || nat_lt 0 reports)) }
{
    reports <= 1 && (cancel == 0 || 0 < reports)
}
