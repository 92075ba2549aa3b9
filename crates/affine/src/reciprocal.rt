// The reciprocal of a row.
ghost use Rattle.std.specs.Prelude.{◌≡◌, ◌*◌, ◌≤◌, ◌<◌, neg_ℤ, nat_abs, ◌+ℤ◌, length};
ghost use Rattle.integer.specs.Floor.{floor_quotient};
ghost use Rattle.integer.specs.Sum.{sum_abs};
ghost use Rattle.affine.specs.Limits.{symbols, unit_squared, span_limit};
ghost use Rattle.affine.specs.Lists.{at};
ghost use Rattle.affine.specs.Row.{span, radius, NoneFrom};
ghost use Rattle.affine.specs.Reciprocal.{slope, candidate_linear, curve, candidate, error_bound, reciprocal_apart, reciprocal, ApartOutweighs};
ghost use Rattle.affine.specs.Told.{answer_of};

use crate::by_index::{Part, put_front, put_pairs_in_use};
use crate::form_range::measure;
use crate::limits::{SYMBOLS, UNIT_SQUARED};
use crate::operands::{Operand, Pair, Symbols};
use crate::product::{dropped_part, linear_total, meeting_at, pair_total};
use crate::quotient::quotient_unless_zero;
use crate::steps::{check_with_own, constant_row};
use crate::{Made, NoRow, Range, Row};
use integer::division::{ceiling_quotient, floor_quotient};

// A coefficient of the candidate: minus N times the operand's, divided by the square of the centre c. The centre's bounds stand in the clauses of four functions: a
// struct of one number and two facts, made for each candidate, would be no plainer.
#[tactic(auto, using(crate::proofs::Magnitude::product_given, crate::proofs::CandidateSize::top_given, crate::proofs::CandidateSize::slope_fits))]
fn candidate_slope(c: i64, v: i64) -> i64
    requires { (nat_abs c ≤ span_limit) × (nat_abs v ≤ span_limit) × (0 < nat_abs c) }
    ensures { result ≡ slope c v }
{
    quotient_unless_zero(-UNIT_SQUARED * v, c * c)
}

// The candidate's coefficient of the symbol at index i.
fn linear_slope(c: i64, linear: &[i64; SYMBOLS], i: usize) -> i64
    requires within { (i < symbols) × (nat_abs c ≤ span_limit) × (0 < nat_abs c) }
    requires linear_within { (length linear.now ≡ symbols) × (sum_abs linear.now ≤ span_limit) }
    ensures { result ≡ slope c (at linear.now i) }
{
    candidate_slope(c, linear[i])
}

// The products that meet in a pair, with the sign turned and divided by the centre c.
#[tactic(auto, using(crate::proofs::CandidateSize::turned_given, crate::proofs::CandidateSize::bend_fits))]
fn candidate_bend(c: i64, met: i64) -> i64
    requires { (nat_abs c ≤ span_limit) × (0 < nat_abs c) × (nat_abs met ≤ 2 * (unit_squared * span_limit)) }
    ensures { result ≡ floor_quotient (neg_ℤ met) c }
{
    quotient_unless_zero(-met, c)
}

// A pair coefficient of the candidate: the slope's part, and that of the products of the candidate's and the operand's coefficients that meet
// in the pair.
#[tactic(auto, using(crate::proofs::CandidateSize::curve_fits))]
fn candidate_curve(c: i64, p: i64, met: i64) -> i64
    requires { (nat_abs c ≤ span_limit) × (nat_abs p ≤ span_limit) × (0 < nat_abs c) × (nat_abs met ≤ 2 * (unit_squared * span_limit)) }
    ensures { result ≡ slope c p +ℤ floor_quotient (neg_ℤ met) c }
{
    candidate_slope(c, p) + candidate_bend(c, met)
}

// The candidate's coefficient of a pair, from its linear coefficients. That the centre outweighs these stands in clauses here and below: a struct would own
// the row, which is then copied, or lend it, which the check does not cover where two are passed.
fn pair_curve(x: &Row, linear: &[i64; SYMBOLS], p: Pair) -> i64
    requires candidate { linear.now ≡ candidate_linear x.now }
    requires outweighs { (span x.now ≤ span_limit) × (0 < nat_abs x.now.centre) × (sum_abs x.now.linear ≤ nat_abs x.now.centre) }
    ensures { result ≡ curve x.now p.index }
{
    candidate_curve(
        x.centre,
        x.pair[p.index],
        meeting_at(linear, &x.linear, p.first, p.second),
    )
}

// The candidate for the reciprocal of a row whose centre is not 0 and no smaller than the linear coefficients, none of them from the own symbol on.
#[inline]
fn candidate(x: &Row, symbols: Symbols) -> Row
    requires none { NoneFrom symbols.own x.now.linear }
    requires outweighs { (span x.now ≤ span_limit) × (0 < nat_abs x.now.centre) × (sum_abs x.now.linear ≤ nat_abs x.now.centre) }
    ensures { result ≡ candidate symbols.squares x.now }
{
    let c = x.centre;
    let mut row = constant_row(floor_quotient(UNIT_SQUARED, c));
    let z = &mut row;
    put_front(
        &mut z.linear,
        symbols.own,
        |i| Part::exact(linear_slope(c, &x.linear, i)),
    );
    let linear = &z.linear;
    put_pairs_in_use(
        &mut z.pair,
        symbols.squares,
        |p| Part::exact(pair_curve(x, linear, p)),
    );
    row
}

// A bound of operand times candidate less 1, in units of 1 over N. The candidate is lent with its radius: an `Operand` of it would copy the row, by 4 in 100
// more instructions of a reciprocal. The totals are put into a row that is not read again: functions that sum alone would be twins of those that put and sum.
#[inline]
fn error_bound(x: &Operand, z: &Row, z_radius: u64, symbols: Symbols) -> u64
    requires none { NoneFrom symbols.own x.now.row.linear × NoneFrom symbols.own z.now.linear }
    requires within { (span z.now ≤ span_limit) × (z_radius ≡ radius z.now) }
    ensures { result ≡ error_bound symbols.squares x.now.row z.now }
{
    let a = &x.row;
    let centre = Part::whole(a.centre * z.centre - UNIT_SQUARED);
    let mut totals = constant_row(0);
    let linear = put_front(
        &mut totals.linear,
        symbols.own,
        |i| Part::whole(linear_total(a, z, i)),
    );
    let pair = put_pairs_in_use(
        &mut totals.pair,
        symbols.squares,
        |p| Part::whole(pair_total(a, z, p)),
    );
    let dropped = dropped_part(
        &x.row.linear,
        x.radius,
        &z.linear,
        z_radius,
        symbols.squares,
    );
    centre.rest + linear + pair + dropped
}

// The reciprocal of a row whose range lies at a distance from 0.
fn reciprocal_apart(x: &Operand, distance: u64, symbols: Symbols) -> Result<Made, NoRow>
    requires none { NoneFrom symbols.own x.now.row.linear × (0 < distance) }
    requires outweighs { (0 < nat_abs x.now.row.centre) × (sum_abs x.now.row.linear ≤ nat_abs x.now.row.centre) }
    ensures { answer_of result ≡ reciprocal_apart symbols.squares symbols.own x.now.row distance }
{
    let mut z = candidate(&x.row, symbols);
    let size = measure(&z, symbols.own).ok_or(NoRow::SpanPassed)?;
    let bound = error_bound(x, &z, size.radius, symbols);
    check_with_own(&mut z, symbols.own, ceiling_quotient(bound, distance))
}

// The reciprocal of a row with its own range.
pub fn invert(x: Operand, range: Range, symbols: Symbols) -> Result<Made, NoRow>
    requires { NoneFrom symbols.own x.row.linear × ApartOutweighs range x.row }
    ensures { answer_of result ≡ reciprocal symbols.squares symbols.own x.row range }
{
    if range.low > 0 {
        return reciprocal_apart(&x, range.low.unsigned_abs(), symbols);
    }
    if range.high < 0 {
        return reciprocal_apart(&x, range.high.unsigned_abs(), symbols);
    }
    Err(NoRow::ZeroInRange)
}
