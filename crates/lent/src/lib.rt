// The change log, lent: document 01, "the host lends its log and the note is entered there". A thin form for a host in another language that
// keeps its log in place; what a note does is crate changes' matter. No enum crosses to the host, so the answer is put in numbers.
#![tactic(auto)]

ghost use Rattle.std.specs.Prelude.{◌≡◌};
ghost use Rattle.changes.specs.Logs.{logged, noted};
ghost use Rattle.lent.specs.Lent.{lent_answer, lent, lent_note};

use answers::{Entered, code, value};
use changes::ChangedAttrs;
use refusal::Refusal;

// What the host is told: document 01's number, 0 for none, and the identity, 0 where the note was refused.
#[repr(C)]
#[derive(Clone, Copy)]
pub struct LentAnswer {
    pub identity: u64,
    pub code: u8,
}

impl From<Result<Entered, Refusal>> for LentAnswer {
    ghost from_gives = { λ answer r. r ≡ lent_answer answer };

    fn from(answer: Result<Entered, Refusal>) -> Self {
        LentAnswer {
            identity: value(answer.map(|entered| entered.identity)),
            code: code(answer),
        }
    }
}

// The host lends its log, and the note is entered there. A refusal leaves the log as it was.
pub fn note_lent(log: &mut ChangedAttrs, endpoint: u16, cluster: u32, attr: u32) -> LentAnswer
    ensures { lent result log.new ≡ lent_note log.old endpoint cluster attr }
{
    let (answer, after) = note_by_value(*log, endpoint, cluster, attr);
    *log = after;
    LentAnswer::from(answer)
}

// The note on a log by value, as document 01 has it: what it is told, and the log after it.
fn note_by_value(
    mut log: ChangedAttrs,
    endpoint: u16,
    cluster: u32,
    attr: u32,
) -> (Result<Entered, Refusal>, ChangedAttrs)
    ensures { logged result.0 result.1 ≡ noted log endpoint cluster attr }
{
    let answer = log.note(endpoint, cluster, attr);
    (answer, log)
}
