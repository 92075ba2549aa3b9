// The product of two rows.
ghost use Rattle.std.specs.Prelude.{◌≡◌, IfOk, ℕ, ◌-◌, ◌*◌, ◌≤◌, ◌<◌, nat_abs, ◌+ℤ◌, ◌*ℤ◌, length, take};
ghost use Rattle.integer.specs.Sum.{sum_abs};
ghost use Rattle.affine.specs.Limits.{symbols, paired, span_limit};
ghost use Rattle.affine.specs.Lists.{at, pick};
ghost use Rattle.affine.specs.Row.{span, NoneFrom};
ghost use Rattle.affine.specs.Product.{meeting, crosswise, linear_total, pair_total, product_rounding, product};
ghost use Rattle.affine.specs.Agreement.{NumbersAgree};
ghost use Rattle.affine.specs.Told.{answer_of};

use crate::by_index::{Part, put_front, put_pairs_in_use};
use crate::limits::{SYMBOLS, UNIT};
use crate::operands::{Operand, Pair, Symbols};
use crate::steps::{check_with_own, constant_row};
use crate::sums::absolutes;
use crate::{Made, NoRow, Row};
use integer::division::{ceiling_quotient, nearest_quotient_4096, nearest_remainder_4096};

// c times the second row's number plus d times the first's, from the centres c and d and the numbers b of the second row and a of the first.
// Bounds of numbers and of indices stand in clauses, here and in the other files: a struct for each would hold one number and have no method.
#[tactic(auto, using(crate::proofs::Magnitude::product_given, crate::proofs::Magnitude::two_products_fit, crate::proofs::Magnitude::two_products_given))]
fn crosswise_total(c: i64, b: i64, d: i64, a: i64) -> i64
    requires { (nat_abs c ≤ span_limit) × (nat_abs b ≤ span_limit) × (nat_abs d ≤ span_limit) × (nat_abs a ≤ span_limit) }
    ensures { result ≡ crosswise c b d a }
{
    c * b + d * a
}

// The total of the symbol at index i. The spans of two rows stand in clauses here and below: a struct that lends a row with its span was tried, and the check does
// not cover a call with two of it.
#[inline]
pub(crate) fn linear_total(x: &Row, y: &Row, i: usize) -> i64
    requires { (i < symbols) × (span x.now ≤ span_limit) × (span y.now ≤ span_limit) }
    ensures { result ≡ linear_total x.now y.now i }
{
    crosswise_total(x.centre, y.linear[i], y.centre, x.linear[i])
}

// The products of linear coefficients that meet in a pair; square: in a pair (i,i).
// Apart from `meeting_at`, with a flag: with the test there, its two products by `crosswise_total` or not, reciprocals take 3 to 5 in 1000 more instructions.
#[tactic(auto, using(crate::proofs::Magnitude::product_given, crate::proofs::Magnitude::two_products_fit, crate::proofs::Magnitude::two_products_given))]
fn meeting_products(ai: i64, bj: i64, aj: i64, bi: i64, square: bool) -> i64
    requires { (nat_abs ai ≤ span_limit) × (nat_abs bj ≤ span_limit) × (nat_abs aj ≤ span_limit) × (nat_abs bi ≤ span_limit) }
    ensures { result ≡ pick square (ai *ℤ bj) (ai *ℤ bj +ℤ aj *ℤ bi) }
{
    if square { ai * bj } else { ai * bj + aj * bi }
}

// The products that meet in the pair of symbols i and j, of two rows' coefficients.
pub(crate) fn meeting_at(a: &[i64; SYMBOLS], b: &[i64; SYMBOLS], i: usize, j: usize) -> i64
    requires i_lt_symbols { (i < symbols) × (j < symbols) }
    requires by_index { ((i : ℕ) → nat_abs (at a.now i) ≤ span_limit) × ((i : ℕ) → nat_abs (at b.now i) ≤ span_limit) }
    ensures { result ≡ meeting a.now b.now i j }
{
    let ai = a[i];
    let bj = b[j];
    let aj = a[j];
    let bi = b[i];
    meeting_products(ai, bj, aj, bi, i == j)
}

// The total of a pair: crosswise as of a symbol, plus the products that meet in the pair.
pub(crate) fn pair_total(x: &Row, y: &Row, p: Pair) -> i64
    requires { (span x.now ≤ span_limit) × (span y.now ≤ span_limit) }
    ensures { result ≡ pair_total x.now y.now p.index }
{
    crosswise_total(x.centre, y.pair[p.index], y.centre, x.pair[p.index])
        + meeting_at(&x.linear, &y.linear, p.first, p.second)
}

// The quotient of a total, and the absolute remainder that it leaves.
#[inline]
fn divided(total: i64) -> Part
    ensures quotient { result.number ≡ product_rounding.quotient total }
    ensures remainder { result.rest ≡ nat_abs (product_rounding.remainder total) }
{
    Part {
        number: nearest_quotient_4096(total),
        rest: nearest_remainder_4096(total),
    }
}

// The radii multiplied, less the same of the first "squares" symbols alone. Two operands in the place of their parts would ask more of callers: the pairs.
#[tactic(auto, using(integer::proofs::Sum::sum_abs_take, crate::proofs::Magnitude::mul_within))]
pub(crate) fn dropped_part<'a, 'b>(
    a: &'a [i64; SYMBOLS],
    a_radius: u64,
    b: &'b [i64; SYMBOLS],
    b_radius: u64,
    squares: usize,
) -> u64
    requires squares_le_paired { squares ≤ paired }
    requires a_len { (length a.now ≡ symbols) × (sum_abs a.now ≤ a_radius) × (a_radius ≤ span_limit) }
    requires b_len { (length b.now ≡ symbols) × (sum_abs b.now ≤ b_radius) × (b_radius ≤ span_limit) }
    ensures { result ≡ a_radius * b_radius - sum_abs (take squares a.now) * sum_abs (take squares b.now) }
{
    a_radius * b_radius - absolutes(&a[..squares]) * absolutes(&b[..squares])
}

// The product of two rows. Each total is formed from the two rows as they are, in its place in the new row, and divided at once.
pub fn multiply(x: Operand, y: Operand, symbols: Symbols) -> Result<Made, NoRow>
    requires { NoneFrom symbols.own x.row.linear × NoneFrom symbols.own y.row.linear }
    ensures value { answer_of result ≡ product symbols.squares symbols.own x.row y.row }

    // on what each number of an accepted product depends
    ensures agreement { IfOk result (λ made. NumbersAgree symbols.squares symbols.own x.row y.row made.row) }
{
    let (a, b) = (&x.row, &y.row);
    let centre = divided(a.centre * b.centre);
    let mut row = constant_row(centre.number);
    let linear = put_front(
        &mut row.linear,
        symbols.own,
        |i| divided(linear_total(a, b, i)),
    );
    let pair = put_pairs_in_use(
        &mut row.pair,
        symbols.squares,
        |p| divided(pair_total(a, b, p)),
    );
    let dropped = dropped_part(&a.linear, x.radius, &b.linear, y.radius, symbols.squares);
    let error = dropped + centre.rest + linear + pair;
    check_with_own(&mut row, symbols.own, ceiling_quotient(error, UNIT))
}
