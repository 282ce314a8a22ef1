// Numbers and answers as text in a lent buffer.
//
// Document 01, "Trace lines": line number, code and value, ended by CRLF. Every buffer and every place is taken; where
// too few bytes are free nothing is written, and the place that was given comes back.
#![tactic(auto)]

ghost use Rattle.std.specs.Prelude.{◌≡◌, [], ◌∷◌, ◌++◌, ◌+◌, ◌≤◌, leb, length};
ghost use Rattle.printing.specs.Answers.{digits_of, answer_of, put_of, field_room, answer_room};
ghost use Rattle.printing.specs.Inner.{Put};

// Twenty digits and the byte behind them.
const FIELD_ROOM: usize = 21;

// Three numbers, two commas and the CRLF.
pub const ANSWER_ROOM: usize = 64;

// Puts an answer into `out` at `at`, and answers the place after it.
pub fn put_answer(out: &mut [u8], at: usize, number: u64, code: u8, value: u64) -> usize
    ensures { (result, out.new) ≡ put_of answer_room out.old at (answer_of number code value) }
{
    if has_room(out.len(), at, ANSWER_ROOM) {
        let a = put_field(out, at, number, b',');
        let b = put_field(out, a, u64::from(code), b',');
        let c = put_field(out, b, value, b'\r');
        out[c] = b'\n';
        return c + 1;
    }
    at
}

// Puts the digits of `n` and the byte `end` into `out` at `at`, and answers the place after them.
pub fn put_field(out: &mut [u8], at: usize, n: u64, end: u8) -> usize
    ensures { (result, out.new) ≡ put_of field_room out.old at (digits_of n ++ (end ∷ [])) }
{
    if has_room(out.len(), at, FIELD_ROOM) {
        let k = put_digits(out, at, n);
        out[k] = end;
        return k + 1;
    }
    at
}

// Puts the digits of `n`, the last one last: those before it are the digits of a tenth. A loop would have to count them first. A digit is
// below ten, and the cast loses nothing.
fn put_digits(out: &mut [u8], at: usize, n: u64) -> usize
    requires { at + length (digits_of n) ≤ length out.old }
    ensures { Put out.old at (digits_of n) result out.new }
{
    if n < 10 {
        out[at] = b'0' + n as u8;
        return at + 1;
    }
    let k = put_digits(out, at, n / 10);
    out[k] = b'0' + (n % 10) as u8;
    k + 1
}

// Whether `room` bytes are free behind `at` in a buffer of `len`.
pub fn has_room(len: usize, at: usize, room: usize) -> bool
    ensures { result ≡ leb (at + room) len }
{
    room <= len && at <= len - room
}
