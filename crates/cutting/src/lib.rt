// An input cut into lines, byte by byte.
//
// Document 01, "Trace lines": a line ends at CRLF alone. A reading goes from byte to byte, and a line's bytes stand in a
// buffer that the caller lends, whose length is the longest line that is read; so an input may come in chunks of any
// length. Every reading, buffer and byte is taken. What a line says is not read here.
#![tactic(auto)]

ghost use Rattle.std.specs.Prelude.{◌≡◌, ◌<◌};
ghost use Rattle.cutting.specs.Steps.{fresh_of, still_of, ended_of, ending_of, spoilt_of, waiting_of, holding_of, ends_of, step_of, scan_of, close_of};

// The longest line of document 01, without its CRLF, and the most lines that are read.
pub const MOST_BYTES: usize = 96;

pub const MOST_LINES: u64 = 1_000_000;

// The line that is being read: how many of its bytes are held, whether it is bad already, whether its last byte was a
// CR that may begin its end. `number` lines have ended before it, and reading stops when there are `most`. A bad line may end in a CR too,
// so that the two are flags; the bytes are in the lent buffer, since there is no heap.
#[derive(Clone, Copy)]
pub struct Reading {
    pub most: u64,
    pub number: u64,
    pub len: usize,
    pub bad: bool,
    pub cr: bool,
}

// A line that ended: a bad one, or one whose bytes are the first so many that are held. Three cases, and each leads somewhere else.
#[derive(Clone, Copy, PartialEq, Eq, Debug)]
pub enum Found {
    Nothing,
    Bad,
    Whole(usize),
}

// What a byte, or the input's end, leads to.
#[derive(Clone, Copy)]
pub struct Stepped {
    pub reading: Reading,
    pub found: Found,
}

// What the bytes up to a line's end, or all of them, lead to, and how many they were.
#[derive(Clone, Copy)]
pub struct Scanned {
    pub reading: Reading,
    pub found: Found,
    pub used: usize,
}

// The begin of an input of which at most `most` lines are read.
pub fn start(most: u64) -> Reading
    ensures { result ≡ fresh_of most 0 }
{
    fresh(most, 0)
}

// The bytes of a chunk up to the end of a line, or all of them.
#[tactic(auto, unfolding(crate::specs::Steps::scan_from))]
pub fn scan(r: Reading, held: &mut [u8], s: &[u8]) -> Scanned
    ensures { (result, held.new) ≡ scan_of r held.old s.now }
{
    let mut reading = r;
    for (i, &b) in s.iter().enumerate() {
        let t = step(reading, held, b);
        reading = t.reading;
        if ends(t.found) {
            return Scanned {
                reading,
                found: t.found,
                used: i + 1,
            };
        }
    }
    Scanned {
        reading,
        found: Found::Nothing,
        used: s.len(),
    }
}

// One byte of the input: a line ends at an LF behind a CR. A CR or LF that ends no line makes its line bad, and so does a
// byte for which no place is left.
#[tactic(auto, unfolding(crate::specs::Steps::step_of))]
pub fn step(r: Reading, held: &mut [u8], b: u8) -> Stepped
    ensures { (result, held.new) ≡ step_of r held.old b }
{
    if r.most <= r.number {
        return still(r);
    }
    match b {
        b'\n' => {
            if r.cr {
                ended(r, ending(r))
            } else {
                spoilt(r, false)
            }
        }
        b'\r' => { if r.cr { spoilt(r, true) } else { waiting(r) } }
        _ => {
            if r.cr {
                return spoilt(r, false);
            }
            if r.len < held.len() {
                held[r.len] = b;
                return holding(r, r.len + 1);
            }
            spoilt(r, false)
        }
    }
}

// The input's end: a last line may lack its CRLF, and nothing after the last CRLF is no line. A CR that waits is a lone one.
#[tactic(auto, unfolding(crate::specs::Steps::close_of))]
pub fn close(r: Reading) -> Stepped
    ensures { result ≡ close_of r }
{
    if r.most <= r.number {
        return still(r);
    }
    if r.cr || r.bad {
        return ended(r, Found::Bad);
    }
    if r.len == 0 {
        return still(r);
    }
    ended(r, Found::Whole(r.len))
}

// Whether a line ended.
pub fn ends(found: Found) -> bool
    ensures { result ≡ ends_of found }
{
    found != Found::Nothing
}

// No line ended.
fn still(r: Reading) -> Stepped
    ensures { result ≡ still_of r }
{
    Stepped {
        reading: r,
        found: Found::Nothing,
    }
}

// A line ended; the next one begins.
fn ended(r: Reading, found: Found) -> Stepped
    requires { r.number < r.most }
    ensures { result ≡ ended_of r found }
{
    Stepped {
        reading: fresh(r.most, r.number + 1),
        found,
    }
}

// The line that ends with what is held; an empty one is bad.
fn ending(r: Reading) -> Found
    ensures { result ≡ ending_of r }
{
    if r.bad || r.len == 0 {
        return Found::Bad;
    }
    Found::Whole(r.len)
}

// The line's begin, with `number` lines before it.
fn fresh(most: u64, number: u64) -> Reading
    ensures { result ≡ fresh_of most number }
{
    Reading {
        most,
        number,
        len: 0,
        bad: false,
        cr: false,
    }
}

// The line is bad, whatever follows. Here and below a field is stored, and `step` asks by an `if` in its arms: with struct updates and
// guards a byte of a line that is bad already took up to twice the time.
fn spoilt(mut r: Reading, cr: bool) -> Stepped
    ensures { result ≡ still_of (spoilt_of r cr) }
{
    r.bad = true;
    r.cr = cr;
    still(r)
}

// A CR that may begin the line's end.
fn waiting(mut r: Reading) -> Stepped
    ensures { result ≡ still_of (waiting_of r) }
{
    r.cr = true;
    still(r)
}

// The line with `len` bytes held.
fn holding(mut r: Reading, len: usize) -> Stepped
    ensures { result ≡ still_of (holding_of r len) }
{
    r.len = len;
    still(r)
}
