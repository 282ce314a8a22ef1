// A round: document 01, "Round". Reports and completions of one table at one instant, outcomes in turn from a lent slice, ids written into
// another. Nothing is decided here of whom a report goes to or what an outcome leaves: a round is the table's calls, one after another.
#![tactic(auto)]

ghost use Rattle.std.specs.Prelude.{◌≡◌, length};
ghost use Rattle.std.specs.List.{list_any};
ghost use Rattle.rules.specs.Machine.{bad_outcome};
ghost use Rattle.places.specs.Calls.{tabled};
ghost use Rattle.round.specs.Rounds.{bad_slices, is_shut, is_silent, turned, turn_of, stood, served, round_of};

use places::Table;
use refusal::Refusal;
use subscription::{ABANDONED, Settings};

// What a round is told: how many were handed out, and whether nothing stored is reportable then.
#[derive(Clone, Copy, Debug, PartialEq, Eq)]
pub struct Ending {
    pub handouts: usize,
    pub silent: bool,
}

// Reports and completes at one instant until nobody is reportable or the outcomes end.
pub fn round(
    table: &mut Table,
    at: Settings,
    outcomes: &[u8],
    ids: &mut [u32],
) -> Result<Ending, Refusal>
    ensures { (tabled result table.new, ids.new) ≡ round_of table.old at outcomes.now ids.old }
{
    if !table::is_kept(table) {
        return Err(Refusal::NotWellKept);
    }
    if are_bad(outcomes, ids.len()) {
        return Err(Refusal::BadArgument);
    }
    if is_shut(*table, at) {
        return Err(Refusal::ReportOpen);
    }
    let handouts = serve(table, at, outcomes, ids);
    Ok(Ending {
        handouts,
        silent: is_silent(*table, at),
    })
}

// Whether an outcome is none, reached or not, or there are not as many ids as outcomes.
fn are_bad(outcomes: &[u8], ids: usize) -> bool
    ensures { result ≡ bad_slices outcomes.now ids }
{
    has_bad(outcomes) || outcomes.len() != ids
}

fn has_bad(outcomes: &[u8]) -> bool
    ensures { result ≡ list_any bad_outcome outcomes.now }
{
    outcomes.iter().any(|outcome| ABANDONED < *outcome)
}

// Whether a report is refused: of a well-kept table, because one is open. It is tried on a copy. That a table has eighty places is in its
// type; the proof of `round` takes it from here.
fn is_shut(mut table: Table, at: Settings) -> bool
    ensures shut { result ≡ is_shut table at }
    ensures long { length table.places ≡ 80 }
{
    table::report(&mut table, at).is_err()
}

// Whether a report would answer that there is nobody. It is tried on a copy.
fn is_silent(mut table: Table, at: Settings) -> bool
    ensures { result ≡ is_silent table at }
{
    match table::report(&mut table, at) {
        Ok(handed) => handed.is_none(),
        Err(_) => false,
    }
}

// One report, ended by its outcome; whom it was handed to.
fn take_turn(table: &mut Table, at: Settings, outcome: u8) -> Option<u32>
    ensures { turned result table.new ≡ turn_of table.old at outcome }
{
    match table::report(table, at) {
        Ok(Some(handed)) => {
            // No refusal: who was handed out is open, and the outcomes were tested.
            let _ = table::complete(table, handed.id, outcome);
            Some(handed.id)
        }
        Ok(None) => None,
        Err(_) => None,
    }
}

// Turn after turn: each outcome ends a report, whose id goes to the next place. How many were handed out.
fn serve(table: &mut Table, at: Settings, outcomes: &[u8], ids: &mut [u32]) -> usize
    requires { length outcomes.now ≡ length ids.old }
    ensures { (stood result table.new, ids.new) ≡ served at outcomes.now 0 ids.old table.old }
{
    for (n, outcome) in outcomes.iter().enumerate() {
        match take_turn(table, at, *outcome) {
            Some(id) => ids[n] = id,
            None => return n,
        }
    }
    outcomes.len()
}
