// Plain interval arithmetic on the ranges of rows (manual, section 5.15): each result holds every value that values in the operands give.
#![tactic(auto)]

ghost use Rattle.std.specs.Prelude.{◌≡◌, ◌≢◌, pos, ◌≤ℤ◌};
ghost use Rattle.affine.specs.Limits.{span_limit};
ghost use Rattle.interval.specs.Interval.{RangeWithin};
ghost use Rattle.interval.specs.Interval as Spec;

use affine::Range;
use affine::limits::UNIT_SQUARED;
use affine::root::unit_root;
use integer::division::{floor_quotient, floor_quotient_4096};

// That both ranges are within the limit stands in three contracts and in no type: a range has any two ends, and a narrower type would ask more of callers.
#[tactic(auto, using(crate::proofs::Sizes::sum_fits))]
pub fn sum(x: Range, y: Range) -> Range
    requires { RangeWithin span_limit x × RangeWithin span_limit y }
    ensures { result ≡ Spec.sum x y }
{
    let low = x.low + y.low;
    let high = x.high + y.high;
    Range { low, high }
}

// The second range taken from the first. Not one function with `sum`, as of rows: here each end goes with the other end of the second range.
#[tactic(auto, using(crate::proofs::Sizes::difference_fits))]
pub fn difference(x: Range, y: Range) -> Range
    requires { RangeWithin span_limit x × RangeWithin span_limit y }
    ensures { result ≡ Spec.difference x y }
{
    let low = x.low - y.high;
    let high = x.high - y.low;
    Range { low, high }
}

// The least and the greatest of the four products of ends, over 4096, down and up.
pub fn product(x: Range, y: Range) -> Range
    requires { RangeWithin span_limit x × RangeWithin span_limit y }
    ensures { result ≡ Spec.product x y }
{
    let ac = x.low * y.low;
    let ad = x.low * y.high;
    let bc = x.high * y.low;
    let bd = x.high * y.high;
    let least = ac.min(ad).min(bc.min(bd));
    let greatest = ac.max(ad).max(bc.max(bd));
    let low = floor_quotient_4096(least);
    let high = -floor_quotient_4096(-greatest);
    Range { low, high }
}

// Of a range with 0 at neither end.
pub fn reciprocal(x: Range) -> Range
    requires { (x.low ≢ pos 0) × (x.high ≢ pos 0) }
    ensures { result ≡ Spec.reciprocal x }
{
    let low = floor_quotient(UNIT_SQUARED, x.high);
    let high = -floor_quotient(-UNIT_SQUARED, x.low);
    Range { low, high }
}

// Of a range above 0.
pub fn root(x: Range) -> Range
    requires { (pos 1 ≤ℤ x.low) × (pos 1 ≤ℤ x.high) × RangeWithin span_limit x }
    ensures { result ≡ Spec.root x }
{
    let low = unit_root(x.low) as i64;
    let high = unit_root(x.high) as i64;
    Range { low, high }
}

// What two ranges have in common.
pub fn overlap(x: Range, y: Range) -> Range
    ensures { result ≡ Spec.overlap x y }
{
    Range {
        low: x.low.max(y.low),
        high: x.high.min(y.high),
    }
}
