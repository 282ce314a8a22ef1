// Whether there is room for a request, under which id, and which id comes next.
ghost use Rattle.std.specs.Prelude.{◌≡◌, ◌+◌, ◌≤◌, ◌||◌};
ghost use Rattle.lists.specs.Search.{some};
ghost use Rattle.rules.specs.States.{has_id};
ghost use Rattle.rules.specs.Machine.{first_of, next_id_after};
ghost use Rattle.places.specs.Views.{stored_of, opens_of};
ghost use Rattle.places.specs.Calls.{admit_objections};
ghost use Rattle.table.specs.Scans.{verdict_of};

use super::scans::{any_with_id, open, stored};
use places::Table;
use refusal::Refusal;
use subscription::Request;

// Nothing, where there is a place for the request, under the id. The counts are asked for, and no invariant of `Table`, since every call
// takes tables that are not well kept and tests them.
pub(crate) fn admits(table: &Table, request: Request, id: u32) -> Result<(), Refusal>
    requires { table.now.stored + table.now.opens ≤ 80 }
    ensures { result ≡ verdict_of (first_of (admit_objections table.now request id)) }
{
    if request.fabric == 0 {
        return Err(Refusal::BadArgument);
    }
    if usize::from(table.capacity) <= table.stored + table.opens {
        return Err(Refusal::Full);
    }
    if is_live(table, id) {
        return Err(Refusal::IdLive);
    }
    Ok(())
}

fn is_live(table: &Table, id: u32) -> bool
    ensures { result ≡ (some (has_id id) (stored_of table.now) || some (has_id id) (opens_of table.now)) }
{
    any_with_id(stored(table), id) || any_with_id(open(table), id)
}

// The greater of the next id and the one after a given id, which wraps.
pub(crate) fn next_id(next: u32, id: u32) -> u32
    ensures { result ≡ next_id_after next id }
{
    next.max(id.wrapping_add(1))
}
