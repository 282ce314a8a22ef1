// The stored and the open ones as slices of the table, and what a call asks of them: is there one, where is the first, how many, the least.
// Each is the library's word with a test or a measure of document 01's, which its contract names.
ghost use Rattle.std.specs.Prelude.{◌≡◌, length};
ghost use Rattle.std.specs.List.{find, list_any, position};
ghost use Rattle.lists.specs.Search.{count, least_by};
ghost use Rattle.instants.specs.Instants.{instant, last_instant};
ghost use Rattle.choices.specs.Choices.{chosen};
ghost use Rattle.rules.specs.States.{is_report, is_priming, has_id};
ghost use Rattle.places.specs.Views.{stored_of, opens_of};
ghost use Rattle.places.specs.Tests.{ready_by, of_fabric, served, struck, next_by, icd_due, seen_of};

use super::PLACES;
use choices::Choice;
use instants::Instant;
use places::Table;
use subscription::{Settings, Subscription};
use time::KeepAlive;

// The stored ones, in their order. That the table has eighty places is in its type; the calls' proofs take it from here.
#[tactic(auto, using(std::proofs::lemmas::List::take_min))]
pub(crate) fn stored(table: &Table) -> &[Subscription]
    ensures are { result.now ≡ stored_of table.now }
    ensures long { length table.now.places ≡ 80 }
{
    let places: &[Subscription] = &table.places;
    &places[..table.stored.min(places.len())]
}

// The open ones, the newest first.
pub(crate) fn open(table: &Table) -> &[Subscription]
    ensures { result.now ≡ opens_of table.now }
{
    &table.places[PLACES.saturating_sub(table.opens)..]
}

#[tactic(auto, unfolding(rules::specs::States::has_id))]
pub(crate) fn any_with_id(xs: &[Subscription], id: u32) -> bool
    ensures { result ≡ list_any (has_id id) xs.now }
{
    xs.iter().any(|x| x.id == id)
}

pub(crate) fn any_report(xs: &[Subscription]) -> bool
    ensures { result ≡ list_any is_report xs.now }
{
    xs.iter().any(|x| x.reporting)
}

pub(crate) fn any_priming(xs: &[Subscription]) -> bool
    ensures { result ≡ list_any is_priming xs.now }
{
    xs.iter().any(|x| !x.reporting)
}

pub(crate) fn any_chosen(xs: &[Subscription], choice: Choice) -> bool
    ensures { result ≡ list_any (chosen choice) xs.now }
{
    xs.iter().any(|x| choice.takes(*x))
}

// Whether the report is among them and the choice takes it.
#[tactic(auto, unfolding(places::specs::Tests::struck))]
pub(crate) fn any_struck(xs: &[Subscription], choice: Choice) -> bool
    ensures { result ≡ list_any (struck choice) xs.now }
{
    xs.iter().any(|x| x.reporting && choice.takes(*x))
}

// Whether one is of the fabric and the peer, with no failure since the last report.
#[tactic(auto, unfolding(places::specs::Tests::served))]
pub(crate) fn any_served(xs: &[Subscription], fabric: u8, peer: u64) -> bool
    ensures { result ≡ list_any (served fabric peer) xs.now }
{
    xs.iter()
        .any(|x| x.fabric == fabric && (x.peer == peer && x.fails == 0))
}

// The place of the first with the id.
#[tactic(auto, unfolding(rules::specs::States::has_id))]
pub(crate) fn first_with_id(xs: &[Subscription], id: u32) -> Option<usize>
    ensures { result ≡ position (has_id id) xs.now }
{
    xs.iter().position(|x| x.id == id)
}

// The first with the id.
#[tactic(auto, unfolding(rules::specs::States::has_id))]
pub(crate) fn one_with_id(xs: &[Subscription], id: u32) -> Option<Subscription>
    ensures { result ≡ find (has_id id) xs.now }
{
    xs.iter().copied().find(|x| x.id == id)
}

// The place of the first that is reportable at the settings; the number is the log's greatest identity.
#[tactic(auto, unfolding(places::specs::Tests::ready_by))]
pub(crate) fn first_ready(xs: &[Subscription], at: Settings, newest: u64) -> Option<usize>
    ensures { result ≡ position (ready_by at newest) xs.now }
{
    xs.iter().position(|x| x.is_reportable(at, x.seen < newest))
}

#[tactic(auto, using(lists::proofs::Library::count_filter), unfolding(places::specs::Tests::of_fabric))]
pub(crate) fn count_of_fabric(xs: &[Subscription], fabric: u8) -> usize
    ensures { result ≡ count (of_fabric fabric) xs.now }
{
    xs.iter().filter(|x| x.fabric == fabric).count()
}

// The least of their next instants; the number is the log's greatest identity.
#[tactic(auto, using(lists::proofs::Library::least_fold), unfolding(places::specs::Tests::next_by))]
pub(crate) fn least_next(xs: &[Subscription], at: Settings, newest: u64) -> Instant
    ensures { result ≡ instant (least_by (next_by at newest) last_instant.ms xs.now) }
{
    Instant::at(
        xs.iter().fold(u64::MAX, |least, x| {
            least.min(x.next_report_at(x.seen < newest, at.events, at.kind).ms)
        }),
    )
}

// The least of their due instants on an intermittently connected device.
#[tactic(auto, using(lists::proofs::Library::least_fold), unfolding(places::specs::Tests::icd_due))]
pub(crate) fn least_due(xs: &[Subscription]) -> Instant
    ensures { result ≡ instant (least_by icd_due last_instant.ms xs.now) }
{
    Instant::at(
        xs.iter().fold(
            u64::MAX,
            |least, x| least.min(x.report_due_at(KeepAlive::Icd).ms),
        ),
    )
}

// The least of the bound and the watermarks that they have seen.
#[tactic(auto, using(lists::proofs::Library::least_fold), unfolding(places::specs::Tests::seen_of))]
pub(crate) fn least_seen(xs: &[Subscription], bound: u64) -> u64
    ensures { result ≡ least_by seen_of bound xs.now }
{
    xs.iter().fold(bound, |least, x| least.min(x.seen))
}
