// The span test of a row, its radius, and the range of its form, from its centre and its coefficients.
ghost use Rattle.std.specs.Prelude.{true, false, ◌≡◌, ◌+◌, ◌-◌, ◌^◌, ◌≤◌, ◌<◌, pos, nat_abs, ◌+ℤ◌, ◌-ℤ◌, length};
ghost use Rattle.integer.specs.Sum.{sum_abs};
ghost use Rattle.affine.specs.Limits.{symbols, pairs, span_limit};
ghost use Rattle.affine.specs.Row.{span, pairs_below, pairs_above, NoneFrom};
ghost use Rattle.affine.specs.Measured.{square_reach, squares_reach, measured};

use crate::limits::{PAIRED, PAIRS, SPAN_LIMIT};
use crate::sums::absolutes;
use crate::{Range, Row};

// How far the term of a pair (i,i), whose product is never negative, goes above 0.
#[tactic(auto, using(crate::proofs::RangeSize::above_by_max))]
fn square_above(v: i64) -> u64
    ensures { result ≡ square_reach true v }
{
    v.max(0) as u64
}

// How far the terms of all pairs (i,i) go above 0, and the sum of their coefficients: what they go above 0 less what they go below it.
#[derive(Clone, Copy)]
struct Squares {
    above: u64,
    sum: i64,
}

fn sum_squares(p: &[i64; PAIRS]) -> Squares
    requires { (length p.now ≡ pairs) × (sum_abs p.now ≤ span_limit) }
    ensures above { result.above ≡ squares_reach true p.now }
    ensures sum { result.sum ≡ pos (squares_reach true p.now) -ℤ pos (squares_reach false p.now) }
{
    let mut above: u64 = 0;
    let mut sum: i64 = 0;
    // an index: the pairs (i,i) stand at falling distances
    let mut k: usize = 0;
    for i in 0..PAIRED {
        let v = p[k];
        above += square_above(v);
        sum += v;
        k += PAIRED - i;
    }
    Squares { above, sum }
}

// The range around the centre c of a row whose absolute coefficients sum to the radius: all of them count to both sides, but of a pair (i,i)
// nothing counts to the other side of 0.
fn range_around(c: i64, radius: u64, p: &[i64; PAIRS]) -> Range
    requires { (length p.now ≡ pairs) × (sum_abs p.now ≤ radius) × (nat_abs c + radius ≤ span_limit) }
    ensures low { result.low ≡ c -ℤ pos ((radius - sum_abs p.now) + pairs_below p.now) }
    ensures high { result.high ≡ c +ℤ pos ((radius - sum_abs p.now) + pairs_above p.now) }
{
    let squares = sum_squares(p);
    let below = (radius - squares.above) as i64;
    Range {
        low: c - below,
        high: c + (below + squares.sum),
    }
}

// The radius of a row within the span limit, and the range of its form.
#[derive(Clone, Copy)]
pub(crate) struct Size {
    pub radius: u64,
    pub range: Range,
}

// The span test of a row that has coefficients of the first symbols alone, so many, and whose span does not wrap: one sum of the absolute values serves the
// test, the radius and the range.
#[inline(never)]
pub(crate) fn measure(row: &Row, count: usize) -> Option<Size>
    requires none { (count ≤ symbols) × NoneFrom count row.now.linear }
    requires small { span row.now < 2 ^ 64 }
    ensures { result ≡ measured row.now }
{
    let radius = absolutes(&row.linear[..count]) + absolutes(&row.pair);
    if row.centre.unsigned_abs() + radius <= SPAN_LIMIT {
        Some(Size {
            radius,
            range: range_around(row.centre, radius, &row.pair),
        })
    } else {
        None
    }
}
