// Reads trace lines from standard input and writes an answer for each to standard output: document 01, "Trace lines".
//
// It reads and writes large chunks and keeps no more of a line than 96 bytes. It ends at the input's end, behind line 1,000,000,
// or at the first read or write that fails; then no more is written, and the failure is told on standard error. What is written of
// the bytes is promised by crate tracing; here is only who reads and who writes.
#![tactic(auto)]

use cutting::{MOST_BYTES, MOST_LINES};
use std::io;
use std::io::{Read, Write};
use tracing::Session;

// How many bytes are read at a time, and how many written.
const CHUNK: usize = 65536;

// Read by read to the end. The reads are counted, so that it ends whatever is read.
fn main(rt: HostRuntime) -> io::Result<()> {
    let mut held = [0u8; MOST_BYTES];
    let mut chunk = [0u8; CHUNK];
    let mut input = rt.reader();
    let mut output = io::writer(&rt);
    let mut session = tracing::start();
    for _ in 0..u64::MAX {
        let n = input.read(&mut chunk)?;
        answered(&mut output, &mut session, &mut held, &chunk[..n])?;
        if n == 0 || MOST_LINES <= session.reading.number {
            return finished(&mut output, session, &held);
        }
    }
    Ok(())
}

// All of a chunk: a run for each output buffer that it fills.
fn answered(
    output: &mut impl Write,
    session: &mut Session,
    held: &mut [u8],
    s: &[u8],
) -> io::Result<()> {
    let mut out = [0u8; CHUNK];
    let mut rest = s;
    // A `while`, since each turn takes as many bytes as its run does.
    while !rest.is_empty() {
        let r = tracing::run(session, held, rest, &mut out);
        output.write_all(&out[..r.wrote])?;
        rest = &rest[r.used..];
    }
    Ok(())
}

fn finished(output: &mut impl Write, session: Session, held: &[u8]) -> io::Result<()> {
    let mut out = [0u8; 64];
    let wrote = tracing::finish(session, held, &mut out);
    output.write_all(&out[..wrote])
}
