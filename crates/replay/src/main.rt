// The comparison's driver: a call on each line of standard input, and for each an answer with the whole state after it on standard output.
//
// The lines are those of ../shared/REPLAY.md, a language of tests in which every public call can be made and every state seen. What a call
// does is proved in the crates below; this program is proved to be safe and to end, and what it writes is compared with the Rust.
#![tactic(auto)]

mod calls;
mod dumps;
mod logs;
mod questions;
mod removals;
mod replies;
mod rounds;
mod singles;
mod texts;
mod times;
mod words;

use cutting::{Found, Reading, close, scan, start};
use places::Table;
use refusal::Refusal;
use std::io;
use std::io::{Read, Write};

// The most bytes of a line that are kept.
const LINE: usize = 4096;

// How many bytes are read at a time, and how many are gathered to be written.
const CHUNK: usize = 65536;

// The capacity of the table at the start.
const CAPACITY: u8 = 80;

// What goes on from line to line: the table, the line that is being read and its bytes so far, and the answers that wait to be written.
// The memory is fixed: the core has no heap.
#[derive(Drop)]
struct Comparison {
    table: Table,
    reading: Reading,
    held: [u8; LINE],
    out: [u8; CHUNK],
    filled: usize,
}

// Read by read to the end. The reads are counted, so that it ends whatever is read. A failed read ends the program: the answers
// gathered so far are written, and the line that it cut short is not answered.
fn main(rt: HostRuntime) -> io::Result<()> {
    let mut input = rt.reader();
    let mut output = io::writer(&rt);
    let mut chunk = [0u8; CHUNK];
    let (_, table) = table::new(CAPACITY);
    let mut comparison = Comparison {
        table,
        reading: start(u64::MAX),
        held: [0; LINE],
        out: [0; CHUNK],
        filled: 0,
    };
    for _ in 0..u64::MAX {
        match input.read(&mut chunk) {
            Err(e) => {
                comparison.flushed(&mut output)?;
                return Err(e);
            }
            Ok(0) => {
                comparison.ended(&mut output)?;
                return comparison.flushed(&mut output);
            }
            Ok(n) => comparison.fed(&mut output, &chunk[..n])?,
        }
    }
    Ok(())
}

impl Comparison {
    // The lines that end in `s`.
    fn fed(&mut self, output: &mut impl Write, s: &[u8]) -> io::Result<()> {
        let mut rest = s;
        // A `while`, since each turn takes as many bytes as its scan does.
        while !rest.is_empty() {
            let t = scan(self.reading, &mut self.held, rest);
            self.reading = t.reading;
            rest = &rest[t.used..];
            self.answered(output, t.found)?;
        }
        Ok(())
    }

    // The input's end.
    fn ended(&mut self, output: &mut impl Write) -> io::Result<()> {
        let t = close(self.reading);
        self.reading = t.reading;
        self.answered(output, t.found)
    }

    // The answer to a line, if one has ended. The buffer is written out once it is half full: the other half has room for the longest
    // answer, which takes less than 21,000 bytes.
    fn answered(&mut self, output: &mut impl Write, found: Found) -> io::Result<()> {
        let reply = match found {
            Found::Nothing => return Ok(()),
            Found::Bad => Err(Refusal::BadLine),
            Found::Whole(n) => calls::answer(&mut self.table, &self.held[..n.min(LINE)]),
        };
        let k = replies::put_reply(&mut self.out, self.filled, self.reading.number, &reply);
        self.filled = dumps::put_state(&mut self.out, k, &self.table);
        if self.filled < CHUNK / 2 {
            return Ok(());
        }
        self.flushed(output)
    }

    // The filled bytes written. A failed write ends the program.
    fn flushed(&mut self, output: &mut impl Write) -> io::Result<()> {
        output.write_all(&self.out[..self.filled.min(CHUNK)])?;
        self.filled = 0;
        Ok(())
    }
}
