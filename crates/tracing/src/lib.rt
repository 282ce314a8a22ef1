// A trace over an input that comes in chunks: each line that ends in a chunk is read, answered by the table and its answer printed.
//
// Document 01, "Trace lines". A session is what is carried from chunk to chunk; the bytes of a line that has not ended stand in a
// buffer that the caller lends, of 96 bytes by document 01. The table is touched once for each line. Every session, chunk and
// buffer is taken; a chunk is taken up to the byte at which the output has no room for another answer. Nothing is read or
// written here but what is lent.
#![tactic(auto)]

ghost use Rattle.std.specs.Prelude.{◌≡◌};
ghost use Rattle.tracing.specs.Runs.{start_of, line_found, worked, run_of, finish_of};

use answering::answer;
use answers::{code, value};
use cutting::{Found, MOST_LINES, Reading};
use lines::Line;
use places::Table;
use printing::ANSWER_ROOM;

#[derive(Clone, Copy)]
pub struct Session {
    pub table: Table,
    pub reading: Reading,
}

// How many bytes of a chunk were taken, and how many bytes of answers were written.
#[derive(Clone, Copy, Debug, PartialEq, Eq)]
pub struct Ran {
    pub used: usize,
    pub wrote: usize,
}

// The capacity of the table at the start.
const CAPACITY: u8 = 80;

// The begin of an input.
#[tactic(auto, unfolding(crate::specs::Runs::start_of))]
pub fn start() -> Session
    ensures { result ≡ start_of }
{
    let (_, table) = table::new(CAPACITY);
    Session {
        table,
        reading: cutting::start(MOST_LINES),
    }
}

// The bytes of a chunk, with the answers of the lines that end in it.
pub fn run(session: &mut Session, held: &mut [u8], s: &[u8], out: &mut [u8]) -> Ran
    ensures { worked session.new result held.new out.new ≡ run_of session.old held.old s.now out.old }
{
    let mut used = 0;
    let mut wrote = 0;
    // A `while`, since each turn takes as many bytes as its scan does.
    while used < s.len() {
        if !printing::has_room(out.len(), wrote, ANSWER_ROOM) {
            return Ran { used, wrote };
        }
        let k = cutting::scan(session.reading, held, &s[used..]);
        session.reading = k.reading;
        used += k.used;
        if !cutting::ends(k.found) {
            return Ran { used, wrote };
        }
        let said = answer(&mut session.table, line_in(k.found, held));
        wrote = printing::put_answer(out, wrote, k.reading.number, code(said), value(said));
    }
    Ran { used, wrote }
}

// The input's end: the answer of a last line without its CRLF, put into `out`; how many bytes of it were written.
pub fn finish(mut session: Session, held: &[u8], out: &mut [u8]) -> usize
    ensures { (result, out.new) ≡ finish_of session held.now out.old }
{
    let t = cutting::close(session.reading);
    if !cutting::ends(t.found) {
        return 0;
    }
    let said = answer(&mut session.table, line_in(t.found, held));
    printing::put_answer(out, 0, t.reading.number, code(said), value(said))
}

// The line that was found; where none was, a bad one.
fn line_in(found: Found, held: &[u8]) -> Line
    ensures { result ≡ line_found held.now found }
{
    match found {
        Found::Whole(n) => lines::read_held(held, n),
        Found::Nothing | Found::Bad => Line::Bad,
    }
}
