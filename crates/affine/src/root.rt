// The root of a row.
ghost use Rattle.std.specs.Prelude.{◌≡◌, ◌*◌, ◌≤◌, ◌<◌, pos, nat_abs, ◌≤ℤ◌, length};
ghost use Rattle.integer.specs.Sum.{sum_abs};
ghost use Rattle.affine.specs.Limits.{symbols, span_limit};
ghost use Rattle.affine.specs.Lists.{at};
ghost use Rattle.affine.specs.Row.{span, radius, NoneFrom};
ghost use Rattle.affine.specs.Root.{
  unit_root,
  root_slope,
  root_candidate,
  linear_miss,
  pair_miss,
  misses,
  square_error,
  root_from,
  square_root,
};
ghost use Rattle.affine.specs.Root as Spec;
ghost use Rattle.affine.specs.Told.{answer_of};

use crate::by_index::{Part, put_front, put_pairs_in_use};
use crate::form_range::measure;
use crate::limits::{HALF_UNIT, PAIRS, UNIT};
use crate::operands::{Pair, Symbols};
use crate::product::{dropped_part, linear_total, pair_total};
use crate::quotient::quotient_unless_zero;
use crate::steps::{check_with_own, constant_row};
use crate::{Made, NoRow, Range, Row};
use integer::division::ceiling_quotient;

// The root of 4096 times a number of units above 0.
#[tactic(auto, using(crate::proofs::RootCandidate::unit_root_is))]
pub fn unit_root(v: i64) -> u64
    requires { (pos 1 ≤ℤ v) × (nat_abs v ≤ span_limit) }
    ensures { result ≡ unit_root v }
{
    integer::root::root(UNIT * v as u64)
}

// A coefficient of the candidate: 2048 times the operand's, divided by the candidate's centre z.
#[tactic(auto, using(crate::proofs::RootCandidate::half_unit_given, crate::proofs::RootCandidate::root_slope_fits))]
fn root_slope(z: u64, v: i64) -> i64
    requires { (0 < z) × (z ≤ span_limit) × (nat_abs v ≤ span_limit) }
    ensures { result ≡ root_slope z v }
{
    quotient_unless_zero(HALF_UNIT * v, z as i64)
}

// The candidate's coefficient for that at index i, of the symbols or of the pairs. Not one function with `linear_slope`: it divides by a centre above 0, that by the
// square of one of either sign.
#[tactic(auto, using(crate::proofs::RowSize::element_within))]
fn root_slope_at(z: u64, numbers: &[i64], i: usize) -> i64
    requires index { i < length numbers.now }
    requires within { (0 < z) × (z ≤ span_limit) × (sum_abs numbers.now ≤ span_limit) }
    ensures { result ≡ root_slope z (at numbers.now i) }
{
    root_slope(z, numbers[i])
}

// The candidate for the root of a row whose centre is above 0 and that has no linear coefficient from own on.
#[inline]
fn root_candidate(x: &Row, own: usize) -> Row
    requires none { (own ≤ symbols) × NoneFrom own x.now.linear }
    requires within { (span x.now ≤ span_limit) × (pos 1 ≤ℤ x.now.centre) }
    ensures { result ≡ root_candidate x.now }
{
    let z = unit_root(x.centre);
    let mut row = constant_row(z as i64);
    put_front(
        &mut row.linear,
        own,
        |i| Part::exact(root_slope_at(z, &x.linear, i)),
    );
    put_front(
        &mut row.pair,
        PAIRS,
        |k| Part::exact(root_slope_at(z, &x.pair, k)),
    );
    row
}

// What a total of candidate times candidate misses of 4096 times the operand's number.
fn missed(v: i64, t: i64) -> i64
    requires { (nat_abs v ≤ span_limit) × (nat_abs t ≤ span_limit * span_limit) }
    ensures { result ≡ Spec.missed v t }
{
    UNIT as i64 * v - t
}

// What the total of the symbol at index i misses. As in `pair_miss`, one line over the total of its kind.
#[tactic(auto, using(crate::proofs::RowSize::linear_at_within, crate::proofs::Magnitude::linear_total_within))]
fn linear_miss(x: &Row, z: &Row, i: usize) -> i64
    requires { (i < symbols) × (span x.now ≤ span_limit) × (span z.now ≤ span_limit) }
    ensures { result ≡ linear_miss x.now z.now i }
{
    missed(x.linear[i], linear_total(z, z, i))
}

// What the total of a pair misses.
#[tactic(auto, using(crate::proofs::RowSize::pair_at_within, crate::proofs::Magnitude::pair_total_within))]
fn pair_miss(x: &Row, z: &Row, p: Pair) -> i64
    requires { (span x.now ≤ span_limit) × (span z.now ≤ span_limit) }
    ensures { result ≡ pair_miss x.now z.now p.index }
{
    missed(x.pair[p.index], pair_total(z, z, p))
}

// A bound of 4096 times operand less candidate times candidate. Neither has a coefficient from the own symbol on. The candidate is lent with its radius, as
// in `error_bound`. One function for both, and for `multiply`, would take the centre, a function for the symbols, one for the pairs, what each gives and the dropped part: no plainer.
#[inline]
fn square_error(x: &Row, z: &Row, z_radius: u64, symbols: Symbols) -> u64
    requires none { NoneFrom symbols.own x.now.linear × NoneFrom symbols.own z.now.linear }
    requires within { (span x.now ≤ span_limit) × (span z.now ≤ span_limit) × (z_radius ≡ radius z.now) }
    ensures { result ≡ square_error symbols.squares x.now z.now }
{
    let centre = Part::whole(missed(x.centre, z.centre * z.centre));
    let mut misses = constant_row(0);
    let linear = put_front(
        &mut misses.linear,
        symbols.own,
        |i| Part::whole(linear_miss(x, z, i)),
    );
    let pair = put_pairs_in_use(
        &mut misses.pair,
        symbols.squares,
        |p| Part::whole(pair_miss(x, z, p)),
    );
    let dropped = dropped_part(&z.linear, z_radius, &z.linear, z_radius, symbols.squares);
    centre.rest + linear + pair + dropped
}

// The root of a row whose own range begins at `least`, above 0.
fn root_from(x: &Row, least: i64, symbols: Symbols) -> Result<Made, NoRow>
    requires none { NoneFrom symbols.own x.now.linear × (span x.now ≤ span_limit) }
    requires least { (pos 1 ≤ℤ least) × (least ≤ℤ x.now.centre) }
    ensures { answer_of result ≡ root_from symbols.squares symbols.own x.now least }
{
    let mut z = root_candidate(x, symbols.own);
    let size = measure(&z, symbols.own).ok_or(NoRow::SpanPassed)?;
    if size.range.low < 0 {
        return Err(NoRow::NoRoot);
    }
    let bound = square_error(x, &z, size.radius, symbols);
    let own = ceiling_quotient(bound, unit_root(least)) + 1;
    check_with_own(&mut z, symbols.own, own)
}

// The root of a row with its own range.
pub fn take_root(x: Row, range: Range, symbols: Symbols) -> Result<Made, NoRow>
    requires { (span x ≤ span_limit) × NoneFrom symbols.own x.linear × (range.low ≤ℤ x.centre) }
    ensures { answer_of result ≡ square_root symbols.squares symbols.own x range }
{
    if range.low < 1 {
        return Err(NoRow::NoRoot);
    }
    root_from(&x, range.low, symbols)
}
