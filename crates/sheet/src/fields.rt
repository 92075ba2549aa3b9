// A line of fields, and plain bytes, read and written. A position, and not the rest of the bytes: `Wrote` says of all the lent bytes what they hold afterwards.
ghost use Rattle.std.specs.Prelude.{◌≡◌, ◌+◌, ◌-◌, ◌≤◌, ◌<◌, length};
ghost use Rattle.sheet.specs.Text.{end_byte, line};
ghost use Rattle.sheet.specs.Reading.{fields_at};
ghost use Rattle.sheet.specs.Results.{fields};
ghost use Rattle.sheet.specs.Wrote.{Wrote};

use crate::number::{self, Found};

// The byte that ends field i of k.
fn end_byte(i: usize, k: usize) -> u8
    requires { i < k }
    ensures { result ≡ end_byte (k - (i + 1)) }
{
    if i + 1 == k { b'\n' } else { b' ' }
}

// The line of k numbers, up to four, that starts at a position, with zeros behind them: in fixed memory.
pub(crate) fn fields_at(s: &[u8], at: usize, k: usize) -> Option<Found<[i64; 4]>>
    requires { (at ≤ length s.now) × (k ≤ 4) }
    ensures { fields result ≡ fields_at s.now at k }
{
    let mut values = [0i64; 4];
    let mut next = at;
    // by the index: it tells the byte that ends the field too
    for i in 0..k {
        let n = number::field_at(s, next, end_byte(i, k))?;
        values[i] = n.value;
        next = n.next;
    }
    Some(Found {
        value: values,
        next,
    })
}

// Writes the bytes t from a position on.
#[tactic(auto, using(crate::proofs::Written::wrote_mid))]
pub fn put_bytes(out: &mut [u8], at: usize, t: &[u8]) -> usize
    requires { at + length t.now ≤ length out.old }
    ensures { Wrote out.old out.new at result t.now }
{
    let end = at + t.len();
    out[at..end].copy_from_slice(t);
    end
}

// Writes a line of numbers.
pub fn put_fields(out: &mut [u8], at: usize, v: &[i64]) -> usize
    requires { at + length (line v.now) ≤ length out.old }
    ensures { Wrote out.old out.new at result (line v.now) }
{
    let mut p = at;
    for (i, x) in v.iter().enumerate() {
        p = number::put_field(out, p, *x, end_byte(i, v.len()));
    }
    p
}
