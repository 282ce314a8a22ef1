// Decimal fields of a line: one at the front of a part of it, and many in a row.
//
// Document 01, "Trace lines": no sign, no leading zero, each within its width. The part goes from after a comma to the
// line's end. Every part and every width is taken; what is no such field is `None`. Which fields a line has is not said here.
#![tactic(auto)]

ghost use Rattle.std.specs.Prelude.{◌≡◌, drop};
ghost use Rattle.fields.specs.Fields.{field_of};
ghost use Rattle.fields.specs.Rows.{numbers_of};
ghost use Rattle.fields.specs.Inner.{grow_of};

// A number, and where the part after its comma starts; a number that ends the line has none.
#[derive(Clone, Copy)]
pub struct Field {
    pub value: u64,
    pub next: Option<usize>,
}

// How many fields can be read at once: more than document 01's lines have, so that another line language can use the reader.
pub const PLACES: usize = 12;

// The numbers of `s` from `from` on, in order, if there are as many fields as widths and nothing else; the part after each
// comma goes to the field reader.
pub fn read_fields(s: &[u8], from: usize, widths: &[u64]) -> Option<[u64; PLACES]>
    ensures { result ≡ numbers_of widths.now (drop from s.now) }
{
    if PLACES < widths.len() {
        return None;
    }
    let mut rest = s.get(from..)?;
    let mut v = [0u64; PLACES];
    for (j, &most) in widths.iter().enumerate() {
        let field = read_field(rest, most)?;
        v[j] = field.value;
        let Some(next) = field.next else {
            return if j + 1 == widths.len() { Some(v) } else { None };
        };
        rest = &rest[next..];
    }
    None
}

// The field at the front of `s`; `most` is the greatest number of its width.
pub fn read_field(s: &[u8], most: u64) -> Option<Field>
    ensures { result ≡ field_of most s.now }
{
    let mut value: u64 = 0;
    for (i, &b) in s.iter().enumerate() {
        if b == b',' {
            let next = Some(i + 1);
            return if i == 0 {
                None
            } else {
                Some(Field { value, next })
            };
        }
        value = grow(value, i, b, most)?;
    }
    if s.is_empty() {
        None
    } else {
        Some(Field { value, next: None })
    }
}

// The digits of `v`, which are `i` bytes, with `b` behind them.
#[tactic(auto, unfolding(crate::specs::Inner::grow_of))]
fn grow(v: u64, i: usize, b: u8, most: u64) -> Option<u64>
    ensures { result ≡ grow_of most v i b }
{
    if v == 0 && 0 < i {
        return None;
    }
    if !b.is_ascii_digit() {
        return None;
    }
    let grown = v.checked_mul(10)?.checked_add(u64::from(b - b'0'))?;
    if grown <= most { Some(grown) } else { None }
}
