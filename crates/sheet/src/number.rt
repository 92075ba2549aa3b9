// A number field: an optional minus and 1 to 10 decimal digits, with the byte that ends it. Read and written.
// The bytes stand with a position, and not as what is left of them: specs/Number.antt and specs/Wrote.antt say by positions what stands there.
ghost use Rattle.std.specs.Prelude.{◌≡◌, ◌++◌, ◌∷◌, [], ◌+◌, ◌≤◌, ◌<◌, length, take, drop, get_or, pos};
ghost use Rattle.std.specs.Str.Parse.{digits_value, signed_digits_value};
ghost use Rattle.sheet.specs.Number.{digit_of, run, signed_of, after_sign, field_at};
ghost use Rattle.sheet.specs.Text.{decimal, numeral};
ghost use Rattle.sheet.specs.Results.{as_digit, field};
ghost use Rattle.sheet.specs.Wrote.{Wrote};

// The most digits of a number that is written: 2^64 - 1 has so many.
const MOST_DIGITS: usize = 20;

// What was read at a position: its value, and the position past it, or past the byte that ends it.
#[derive(Clone, Copy, Debug, PartialEq, Eq)]
pub struct Found<T> {
    pub value: T,
    pub next: usize,
}

// The digit that a byte stands for.
pub fn digit(b: u8) -> Option<u64>
    ensures { result ≡ as_digit (digit_of b) }
{
    match b {
        b'0'..=b'9' => Some((b - b'0') as u64),
        _ => None,
    }
}

// The digits from a position on, ten at the most.
fn digits(s: &[u8], at: usize) -> Found<u64>
    requires { at ≤ length s.now }
    ensures { result ≡ run 0 at (drop at s.now) }
{
    let mut value = 0;
    for (i, b) in s[at..].iter().enumerate() {
        match digit(*b) {
            Some(d) if value < 1000000000 => value = value * 10 + d,
            _ => {
                return Found {
                    value,
                    next: at + i,
                };
            }
        }
    }
    Found {
        value,
        next: s.len(),
    }
}

// A magnitude with its sign. The sign is a flag, here and below: it is known before the digits, and decides whether a 0 may stand alone.
fn signed(minus: bool, v: u64) -> i64
    requires { v < 10000000000 }
    ensures { result ≡ signed_of minus v }
{
    if minus { -(v as i64) } else { v as i64 }
}

// The byte at a position, or 0 past the end. No `Option`: no field holds a 0, and what reading means says it so.
pub fn byte(s: &[u8], i: usize) -> u8
    ensures { result ≡ get_or s.now i 0 }
{
    s.get(i).copied().unwrap_or(0)
}

// A number without its minus, from q on, ended by the byte t.
#[tactic(auto, unfolding(crate::specs::Number::judged, crate::specs::Number::after_sign))]
fn after_sign(s: &[u8], minus: bool, q: usize, t: u8) -> Option<Found<i64>>
    requires { q ≤ length s.now }
    ensures { field result ≡ after_sign s.now minus q t }
{
    let run = digits(s, q);
    let has_needless_zero = byte(s, q) == b'0' && (minus || run.next != q + 1);
    if run.next <= q || byte(s, run.next) != t || has_needless_zero {
        return None;
    }
    Some(Found {
        value: signed(minus, run.value),
        next: run.next + 1,
    })
}

// The number field at a position, ended by the byte t.
#[tactic(auto, using(crate::proofs::Digits::inside), unfolding(crate::specs::Number::field_at))]
pub fn field_at(s: &[u8], at: usize, t: u8) -> Option<Found<i64>>
    requires { at ≤ length s.now }
    ensures { field result ≡ field_at s.now at t }
{
    if byte(s, at) == b'-' {
        after_sign(s, true, at + 1, t)
    } else {
        after_sign(s, false, at, t)
    }
}

// Writes v in decimal from a position on, k digits at the most, and returns the position behind them. Digit by digit: `write!` knows no position.
fn put_digits(out: &mut [u8], at: usize, v: u64, k: usize) -> usize
    requires { at + length (decimal k v) ≤ length out.old }
    ensures { Wrote out.old out.new at result (decimal k v) }
{
    if k == 0 {
        at
    } else if v < 10 {
        out[at] = v as u8 + b'0';
        at + 1
    } else {
        let p = put_digits(out, at, v / 10, k - 1);
        out[p] = (v % 10) as u8 + b'0';
        p + 1
    }
}

// Writes one byte.
fn put_byte(out: &mut [u8], at: usize, b: u8) -> usize
    requires { at < length out.old }
    ensures { Wrote out.old out.new at result (b ∷ []) }
{
    out[at] = b;
    at + 1
}

// Writes a number with all its digits: the bytes tell it.
fn put_number(out: &mut [u8], at: usize, v: i64) -> usize
    requires { at + length (numeral v) ≤ length out.old }
    ensures written { Wrote out.old out.new at result (numeral v) }
    ensures whole { signed_digits_value 10 (drop at (take result out.new)) ≡ v }
{
    let size = v.unsigned_abs();
    if v < 0 {
        let p = put_byte(out, at, b'-');
        put_digits(out, p, size, MOST_DIGITS)
    } else {
        put_digits(out, at, size, MOST_DIGITS)
    }
}

// Writes a count with all its digits: the bytes tell it.
#[tactic(auto, unfolding(crate::specs::Text::numeral))]
pub fn put_count(out: &mut [u8], at: usize, n: u64) -> usize
    requires { at + length (numeral (pos n)) ≤ length out.old }
    ensures written { Wrote out.old out.new at result (numeral (pos n)) }
    ensures whole { digits_value 10 (drop at (take result out.new)) ≡ n }
{
    put_digits(out, at, n, MOST_DIGITS)
}

// Writes a number and the byte t behind it.
pub(crate) fn put_field(out: &mut [u8], at: usize, v: i64, t: u8) -> usize
    requires { at + length (numeral v ++ (t ∷ [])) ≤ length out.old }
    ensures { Wrote out.old out.new at result (numeral v ++ (t ∷ [])) }
{
    let p = put_number(out, at, v);
    put_byte(out, p, t)
}
