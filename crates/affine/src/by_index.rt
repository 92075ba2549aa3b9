// A part of a row by a function of the index: of the first symbols, or of the pairs in use. Each number is put where it stands, and what it leaves is summed.
ghost use Rattle.std.specs.Prelude.{◌≡◌, ℕ, suc, ◌^◌, ◌≤◌, ◌<◌, pos, nat_abs, length, replicate};
ghost use Rattle.integer.specs.Sum.{sum_abs};
ghost use Rattle.affine.specs.declared.operands.Pair.{Pair};
ghost use Rattle.affine.specs.declared.by_index.Part.{Part};
ghost use Rattle.affine.specs.Limits.{paired, pairs};
ghost use Rattle.affine.specs.Lists.{at, tabulate};
ghost use Rattle.affine.specs.PairOrder.{over_used};
ghost use Rattle.affine.specs.ByIndex.{Parting, IsPart, NoneWithin, ColumnsPut};

use crate::limits::{PAIRED, PAIRS};
use crate::operands::Pair;

// f at each index. A loop: with `array::from_fn`, which is told call by call, the proof of a row made of two stays open.
pub(crate) fn each<const N: usize, F: Fn(usize) -> i64>(f: F) -> [i64; N]
    requires callable { (i : ℕ) → i < N → F.pre f i }
    ensures given { (i : ℕ) → i < N → F.post f i (at result i) }
    ensures long { length result ≡ N }
{
    let mut out = [0i64; N];
    for i in 0..N {
        out[i] = f(i);
    }
    out
}

// What a function gives at an index: a number of a row, and the absolute value of what it leaves.
#[derive(Clone, Copy)]
pub(crate) struct Part {
    pub number: i64,
    pub rest: u64,
}

impl Part {
    // A number that leaves nothing.
    #[inline]
    pub(crate) fn exact(number: i64) -> Part
        ensures { (result.number ≡ number) × (result.rest ≡ 0) }
    {
        Part { number, rest: 0 }
    }

    // A total, of which nothing is taken.
    #[inline]
    pub(crate) fn whole(total: i64) -> Part
        ensures { (result.number ≡ total) × (result.rest ≡ nat_abs total) }
    {
        Part {
            number: total,
            rest: total.unsigned_abs(),
        }
    }
}

// Puts f at the first indices into zeros, and answers the sum of what the numbers leave. By the index, which f takes:
// `numbers[..count].iter_mut().enumerate()` gives the same one and is no shorter.
#[inline]
pub(crate) fn put_front<const N: usize, F: Fn(usize) -> Part>(
    numbers: &mut [i64; N],
    count: usize,
    f: F,
) -> u64
    ghost parting: { Parting }
    requires few { count ≤ N }
    requires zeros { numbers.old ≡ replicate N (pos 0) }
    requires callable { (i : ℕ) → i < count → F.pre f i }
    requires given { (i : ℕ) (p : Part) → i < count → F.post f i p → IsPart parting i p }
    requires none { NoneWithin count N parting }
    requires small { sum_abs (tabulate N parting.remainder) < 2 ^ 64 }
    ensures numbers { numbers.new ≡ tabulate N parting.number }
    ensures rests { result ≡ sum_abs (tabulate N parting.remainder) }
{
    let mut rests: u64 = 0;
    for i in 0..count {
        let part = f(i);
        numbers[i] = part.number;
        rests += part.rest;
    }
    rests
}

// Puts f at the pairs whose second symbol is j, behind those of the symbols before it, and adds what the numbers leave.
#[inline]
fn put_column<F: Fn(Pair) -> Part>(numbers: &mut [i64; PAIRS], before: u64, j: usize, f: &F) -> u64
    ghost parting: { Parting }
    requires column { j < paired }
    requires callable { (p : Pair) → p.second ≡ j → F.pre f.now p }
    requires given { (p : Pair) (q : Part) → p.second ≡ j → F.post f.now p q → IsPart parting p.index q }
    requires before { ColumnsPut parting j numbers.old before }
    requires small { sum_abs (over_used (suc j) parting.remainder) < 2 ^ 64 }
    ensures { ColumnsPut parting (suc j) numbers.new result }
{
    let mut rests = before;
    // an index: the pairs of a column stand at falling distances
    let mut k = j;
    for i in 0..j + 1 {
        let part = f(Pair {
            first: i,
            second: j,
            index: k,
        });
        numbers[k] = part.number;
        rests += part.rest;
        k += PAIRED - 1 - i;
    }
    rests
}

// Puts f at the pairs in use into zeros, and answers the sum of what the numbers leave.
#[inline]
pub(crate) fn put_pairs_in_use<F: Fn(Pair) -> Part>(
    numbers: &mut [i64; PAIRS],
    squares: usize,
    f: F,
) -> u64
    ghost parting: { Parting }
    requires few { squares ≤ paired }
    requires zeros { numbers.old ≡ replicate pairs (pos 0) }
    requires callable { (p : Pair) → p.second < squares → F.pre f p }
    requires given { (p : Pair) (q : Part) → p.second < squares → F.post f p q → IsPart parting p.index q }
    requires small { sum_abs (over_used squares parting.remainder) < 2 ^ 64 }
    ensures numbers { numbers.new ≡ over_used squares parting.number }
    ensures rests { result ≡ sum_abs (over_used squares parting.remainder) }
{
    let mut rests: u64 = 0;
    for j in 0..squares {
        rests = put_column(&mut *numbers, rests, j, &f);
    }
    rests
}
