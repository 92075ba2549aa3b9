// The rows of inputs, constants, sums and differences.
ghost use Rattle.std.specs.Prelude.{ℤ, ◌≡◌, ◌+◌, ◌^◌, ◌≤◌, ◌<◌, pos, nat_abs, ◌+ℤ◌, ◌-ℤ◌};
ghost use Rattle.affine.specs.Limits.{symbols, span_limit};
ghost use Rattle.affine.specs.Row.{span, NoneFrom};
ghost use Rattle.affine.specs.Steps.{constant_row, with_own, add_rows, subtract_rows, zip_rows, checked, input_answer};
ghost use Rattle.affine.specs.Told.{answer_of};

use crate::by_index::each;
use crate::form_range::measure;
use crate::limits::{PAIRS, SPAN_LIMIT, SYMBOLS};
use crate::{Made, NoRow, Range, Row};

pub(crate) fn constant_row(v: i64) -> Row
    ensures { result ≡ constant_row v }
{
    Row {
        centre: v,
        linear: [0i64; SYMBOLS],
        pair: [0i64; PAIRS],
    }
}

// A row that has coefficients of the first symbols alone, so many, and the range of its form as the answer, or the refusal where its span is passed.
#[inline]
fn check(row: &Row, count: usize) -> Result<Made, NoRow>
    requires none { (count ≤ symbols) × NoneFrom count row.now.linear }
    requires small { span row.now < 2 ^ 64 }
    ensures { answer_of result ≡ checked row.now }
{
    let size = measure(row, count).ok_or(NoRow::SpanPassed)?;
    Ok(Made {
        row: *row,
        radius: size.radius,
        range: size.range,
    })
}

// Puts the own coefficient into a lent row, which has none from its own symbol on, and answers that row by its span.
#[inline]
#[tactic(auto, using(crate::proofs::SpanSize::span_own, crate::proofs::Fronts::none_behind_own))]
pub(crate) fn check_with_own(row: &mut Row, own: usize, coefficient: u64) -> Result<Made, NoRow>
    requires none { (own < symbols) × NoneFrom own row.old.linear }
    requires small { span row.old + coefficient < 2 ^ 63 }
    ensures answer { answer_of result ≡ checked (with_own own (pos coefficient) row.old) }
    ensures owned { row.new ≡ with_own own (pos coefficient) row.old }
{
    row.linear[own] = coefficient as i64;
    check(row, own + 1)
}

#[tactic(auto, using(crate::proofs::SpanSize::constant_spans))]
pub fn constant(v: i64) -> Result<Made, NoRow>
    ensures { answer_of result ≡ checked (constant_row v) }
{
    check(&constant_row(v), 0)
}

// The row of an input that owns the symbol at index own; its range is its ends. It has one coefficient, so nothing is summed.
pub fn input(own: usize, low: i64, high: i64) -> Result<Made, NoRow>
    requires { (own < symbols) × (nat_abs low ≤ span_limit) × (nat_abs high ≤ span_limit) }
    ensures { answer_of result ≡ input_answer own low high }
{
    let centre = integer::division::floor_quotient(low + high, 2);
    let v = high - centre;
    let mut row = constant_row(centre);
    row.linear[own] = v;
    let radius = v.unsigned_abs();
    if centre.unsigned_abs() + radius > SPAN_LIMIT {
        return Err(NoRow::SpanPassed);
    }
    Ok(Made {
        row,
        radius,
        range: Range { low, high },
    })
}

// The row that f makes of two, number by number: that of an operation, where f gives what the operation does.
fn zip_rows<F: Fn(i64, i64) -> i64>(x: &Row, y: &Row, f: F) -> Row
    requires callable { (v w : ℤ) → nat_abs v ≤ span_limit → nat_abs w ≤ span_limit → F.pre f v w }
    requires within { (span x.now ≤ span_limit) × (span y.now ≤ span_limit) }
    ensures zipped { (op : ℤ → ℤ → ℤ) → ((v w z : ℤ) → F.post f v w z → z ≡ op v w) → result ≡ zip_rows op x.now y.now }
{
    Row {
        centre: f(x.centre, y.centre),
        linear: each(|i| f(x.linear[i], y.linear[i])),
        pair: each(|k| f(x.pair[k], y.pair[k])),
    }
}

// The sum and the difference of two numbers of rows within the span limit. Named: with `|v, w| v + w` in their place the proofs of `add` and `subtract` stay open.
fn sum_of(v: i64, w: i64) -> i64
    requires { (nat_abs v ≤ span_limit) × (nat_abs w ≤ span_limit) }
    ensures { result ≡ v +ℤ w }
{
    v + w
}

fn difference_of(v: i64, w: i64) -> i64
    requires { (nat_abs v ≤ span_limit) × (nat_abs w ≤ span_limit) }
    ensures { result ≡ v -ℤ w }
{
    v - w
}

// The sum of two rows that have no coefficient from the own symbol of the new one on. A sum and a difference are one function with another operation. The spans
// stand in clauses, as of a root: an `Operand` would ask more of callers, the radius.
pub fn add(x: Row, y: Row, own: usize) -> Result<Made, NoRow>
    requires few { own ≤ symbols }
    requires none { NoneFrom own x.linear × NoneFrom own y.linear }
    requires within { (span x ≤ span_limit) × (span y ≤ span_limit) }
    ensures { answer_of result ≡ checked (add_rows x y) }
{
    check(&zip_rows(&x, &y, sum_of), own)
}

// The second row taken from the first.
pub fn subtract(x: Row, y: Row, own: usize) -> Result<Made, NoRow>
    requires few { own ≤ symbols }
    requires none { NoneFrom own x.linear × NoneFrom own y.linear }
    requires within { (span x ≤ span_limit) × (span y ≤ span_limit) }
    ensures { answer_of result ≡ checked (subtract_rows x y) }
{
    check(&zip_rows(&x, &y, difference_of), own)
}
