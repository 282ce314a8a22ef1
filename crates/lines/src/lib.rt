// A whole line, without its CRLF, of document 01's seven kinds.
//
// Document 01, "Trace lines", says the words, their fields and the fields' widths. Every slice is taken; a line of any
// other shape is `Bad`. What a line does is not said here, nor where it begins and ends.
#![tactic(auto)]

ghost use Rattle.std.specs.Prelude.{◌≡◌, take, IfSome};
ghost use Rattle.lines.specs.Lines.{begins, kind_of, word_of, widths_of, filled, made, line_of};
ghost use Rattle.fields.specs.Rows.{Fit};

use fields::{PLACES, read_fields};

#[derive(Clone, Copy)]
pub enum Line {
    New(u8),
    Add {
        now: u64,
        fabric: u8,
        peer: u64,
        min: u16,
        max: u16,
        events: u64,
        rx: u16,
    },
    Note {
        endpoint: u16,
        cluster: u32,
        attribute: u32,
    },
    Report {
        now: u64,
        events: u64,
        icd: bool,
        all: bool,
    },
    Done {
        id: u32,
        outcome: u8,
    },
    Attr {
        id: u32,
        endpoint: u16,
        cluster: u32,
        attribute: u32,
    },
    Wake {
        events: u64,
        icd: bool,
    },
    // Document 01 answers a line of any other shape too.
    Bad,
}

// The word that a line begins with.
#[derive(Clone, Copy)]
enum Kind {
    New,
    Add,
    Note,
    Report,
    Done,
    Attr,
    Wake,
}

// In the order in which document 01 lists them.
const KINDS: [Kind; 7] = [
    Kind::New,
    Kind::Add,
    Kind::Note,
    Kind::Report,
    Kind::Done,
    Kind::Attr,
    Kind::Wake,
];

// The greatest number of each width.
pub const FLAG: u64 = 1;

pub const BITS8: u64 = 0xff;

pub const BITS16: u64 = 0xffff;

pub const BITS32: u64 = 0xffff_ffff;

pub const BITS64: u64 = 0xffff_ffff_ffff_ffff;

// The line that all of `s` is.
#[tactic(auto, using(crate::proofs::Lines::fits), unfolding(crate::specs::Lines::line_of))]
pub fn read_line(s: &[u8]) -> Line
    ensures { result ≡ line_of s.now }
{
    let Some(kind) = kind_of(s) else {
        return Line::Bad;
    };
    // An arm for each kind, so that where its fields begin and how wide they are is written in the code: looked up by the kind, a short
    // line took up to twice the time.
    match kind {
        Kind::New => line_of(kind, read_fields(s, 4, &[BITS8])),
        Kind::Add => line_of(
            kind,
            read_fields(
                s,
                4,
                &[BITS64, BITS8, BITS64, BITS16, BITS16, BITS64, BITS16],
            ),
        ),
        Kind::Note => line_of(kind, read_fields(s, 5, &[BITS16, BITS32, BITS32])),
        Kind::Report => line_of(kind, read_fields(s, 7, &[BITS64, BITS64, FLAG, FLAG])),
        Kind::Done => line_of(kind, read_fields(s, 5, &[BITS32, BITS8])),
        Kind::Attr => line_of(kind, read_fields(s, 5, &[BITS32, BITS16, BITS32, BITS32])),
        Kind::Wake => line_of(kind, read_fields(s, 5, &[BITS64, FLAG])),
    }
}

// The line whose bytes are the first `n` of a buffer, or all of it where there are no more.
pub fn read_held(held: &[u8], n: usize) -> Line
    ensures { result ≡ line_of (take n held.now) }
{
    read_line(&held[..n.min(held.len())])
}

// The kind whose word `s` begins with.
fn kind_of(s: &[u8]) -> Option<Kind>
    ensures { result ≡ kind_of s.now }
{
    KINDS.iter().copied().find(|kind| starts(s, word_of(*kind)))
}

// Whether `s` begins with `word`, by document 01's word for it.
pub fn starts(s: &[u8], word: &[u8]) -> bool
    ensures { result ≡ begins word.now s.now }
{
    s.starts_with(word)
}

// The word of a kind, with its comma.
fn word_of(kind: Kind) -> &'static [u8]
    ensures { result.now ≡ word_of kind }
{
    match kind {
        Kind::New => b"new,",
        Kind::Add => b"add,",
        Kind::Note => b"note,",
        Kind::Report => b"report,",
        Kind::Done => b"done,",
        Kind::Attr => b"attr,",
        Kind::Wake => b"wake,",
    }
}

// The line of a kind, if its fields were all there.
fn line_of(kind: Kind, numbers: Option<[u64; PLACES]>) -> Line
    requires { IfSome numbers (Fit (widths_of kind)) }
    ensures { result ≡ made kind numbers }
{
    match numbers {
        Some(v) => line_with(kind, v),
        None => Line::Bad,
    }
}

// The line of a kind, with its numbers. Each is within its width, which is asked for: a cast loses nothing.
fn line_with(kind: Kind, v: [u64; PLACES]) -> Line
    requires { Fit (widths_of kind) v }
    ensures { result ≡ filled kind v }
{
    match kind {
        Kind::New => Line::New(v[0] as u8),
        Kind::Add => add_with(v),
        Kind::Note => Line::Note {
            endpoint: v[0] as u16,
            cluster: v[1] as u32,
            attribute: v[2] as u32,
        },
        Kind::Report => Line::Report {
            now: v[0],
            events: v[1],
            icd: v[2] == FLAG,
            all: v[3] == FLAG,
        },
        Kind::Done => Line::Done {
            id: v[0] as u32,
            outcome: v[1] as u8,
        },
        Kind::Attr => Line::Attr {
            id: v[0] as u32,
            endpoint: v[1] as u16,
            cluster: v[2] as u32,
            attribute: v[3] as u32,
        },
        Kind::Wake => Line::Wake {
            events: v[0],
            icd: v[1] == FLAG,
        },
    }
}

fn add_with(v: [u64; PLACES]) -> Line
    requires { Fit (widths_of Kind.Add) v }
    ensures { result ≡ filled Kind.Add v }
{
    Line::Add {
        now: v[0],
        fabric: v[1] as u8,
        peer: v[2],
        min: v[3] as u16,
        max: v[4] as u16,
        events: v[5],
        rx: v[6] as u16,
    }
}
