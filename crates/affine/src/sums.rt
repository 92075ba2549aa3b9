// Sums of absolute coefficients, the span test and the comparison of two rows by their numbers.
ghost use Rattle.std.specs.Prelude.{◌≡◌, suc, ◌+◌, ◌^◌, ◌≤◌, ◌<◌, nat_abs, length};
ghost use Rattle.integer.specs.Sum.{sum_abs};
ghost use Rattle.affine.specs.Limits.{span_limit};
ghost use Rattle.affine.specs.Row.{within_span, agree};
ghost use Rattle.affine.specs.Capped.{capped};

use crate::Row;
use crate::limits::SPAN_LIMIT;

// The sum of the absolute values of so many numbers. By a loop: a chain that ends in `sum` takes three instructions more in a multiply.
#[tactic(auto, using(integer::proofs::Sum::sum_abs_more, integer::proofs::Sum::sum_abs_take))]
pub(crate) fn absolutes(a: &[i64]) -> u64
    requires { sum_abs a.now < 2 ^ 64 }
    ensures { result ≡ sum_abs a.now }
{
    let mut sum: u64 = 0;
    for v in a {
        sum += v.unsigned_abs();
    }
    sum
}

// A sum that stops one above the span limit, so that no row makes it wrap.
#[tactic(auto, using(crate::proofs::CappedLaws::capped_min))]
fn capped_sum(sum: u64, v: i64) -> u64
    requires { sum ≤ suc span_limit }
    ensures { result ≡ capped (sum + nat_abs v) }
{
    (sum + v.unsigned_abs()).min(SPAN_LIMIT + 1)
}

// A sum so stopped, with the absolute values of so many numbers more.
fn capped_absolutes(start: u64, a: &[i64]) -> u64
    requires { start ≤ suc span_limit }
    ensures { result ≡ capped (start + sum_abs a.now) }
{
    a.iter().copied().fold(start, capped_sum)
}

// Whether the span of a row, of any numbers at all, is within its limit. `form_range::measure` sums plainly where the sum does not wrap.
#[tactic(auto, using(crate::proofs::RowSize::span_is_sum, crate::proofs::CappedLaws::capped_le, crate::proofs::CappedLaws::capped_parts))]
pub fn within_span(r: Row) -> bool
    ensures { result ≡ within_span r }
{
    let sum = capped_absolutes(capped_sum(0, r.centre), &r.linear);
    capped_absolutes(sum, &r.pair) <= SPAN_LIMIT
}

// Whether two lists of numbers, of one length, agree: two rows by their numbers, or parts of them. Pair by pair: `==` of the two slices takes 11 in 100 more
// instructions of a listing.
pub fn same_numbers(a: &[i64], b: &[i64]) -> bool
    requires { length a.now ≡ length b.now }
    ensures { result ≡ agree a.now b.now }
{
    a.iter().zip(b).all(|(x, y)| x == y)
}
