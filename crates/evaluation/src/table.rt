// Rows in a table of numbers: row k, counted from 0, has the ROW_WIDTH numbers from ROW_WIDTH * k on. Their ranges in a second one, in the same way.
// Each function asks for the room of the rows that it names, as a slice does of an index: the tables are the caller's, and of any length.
ghost use Rattle.std.specs.Prelude.{◌≡◌, ◌+◌, ◌*◌, ◌≤◌, length};
ghost use Rattle.std.proofs.Math.Seq.{paste};
ghost use Rattle.affine.specs.Row.{numbers, same};
ghost use Rattle.evaluation.specs.Table.{part, row_at, row_part, row_of_numbers, row_width, range_at, range_numbers, range_width};

use affine::limits::{PAIRS, SYMBOLS};
use affine::{Range, Row};

pub const ROW_WIDTH: usize = 1 + SYMBOLS + PAIRS;

pub const RANGE_WIDTH: usize = 2;

// Of a table that has so many numbers for each row, those of row k.
#[inline]
fn part<const WIDTH: usize>(table: &[i64], k: usize) -> &[i64]
    requires { WIDTH * k + WIDTH ≤ length table.now }
    ensures is { result.now ≡ part WIDTH table.now k }
    ensures wide { length result.now ≡ WIDTH }
{
    let start = WIDTH * k;
    &table[start..start + WIDTH]
}

// The part of the table that holds row k.
#[inline]
pub fn row_part(table: &[i64], k: usize) -> &[i64]
    requires { row_width * k + row_width ≤ length table.now }
    ensures { result.now ≡ row_part table.now k }
{
    part::<ROW_WIDTH>(table, k)
}

// The row that so many numbers are. A function and no `From`: `Row` is another crate's.
#[inline]
fn row_of_numbers(numbers: &[i64]) -> Row
    requires { length numbers.now ≡ row_width }
    ensures { result ≡ row_of_numbers numbers.now }
{
    let mut linear = [0i64; SYMBOLS];
    linear.copy_from_slice(&numbers[1..1 + SYMBOLS]);
    let mut pair = [0i64; PAIRS];
    pair.copy_from_slice(&numbers[1 + SYMBOLS..]);
    Row {
        centre: numbers[0],
        linear,
        pair,
    }
}

// Row k, copied out.
#[inline]
pub(crate) fn get_row(table: &[i64], k: usize) -> Row
    requires { row_width * k + row_width ≤ length table.now }
    ensures { result ≡ row_at table.now k }
{
    row_of_numbers(part::<ROW_WIDTH>(table, k))
}

// The numbers of src, put into dst from an index on. A loop by index: `copy_from_slice` calls the C library here, by which an evaluation takes more instructions
// (docs/SPEED.md), and for the part of dst zipped with src the proof did not close.
fn put_numbers(dst: &mut [i64], at: usize, src: &[i64])
    requires { at + length src.now ≤ length dst.old }
    ensures { dst.new ≡ paste dst.old at src.now (length src.now) }
{
    for i in 0..src.len() {
        dst[at + i] = src[i];
    }
}

// The numbers of a row stand in three places: to be put as one part, like a range's, they would be copied together first.
#[inline]
pub(crate) fn put_row(table: &mut [i64], k: usize, row: &Row)
    requires { row_width * k + row_width ≤ length table.old }
    ensures { table.new ≡ paste table.old (row_width * k) (numbers row.now) row_width }
{
    let start = ROW_WIDTH * k;
    table[start] = row.centre;
    put_numbers(table, start + 1, &row.linear);
    put_numbers(table, start + 1 + SYMBOLS, &row.pair);
}

// The range of row k, from the second table.
#[inline]
pub fn get_range(ranges: &[i64], k: usize) -> Range
    requires { range_width * k + range_width ≤ length ranges.now }
    ensures { result ≡ range_at ranges.now k }
{
    let numbers = part::<RANGE_WIDTH>(ranges, k);
    Range {
        low: numbers[0],
        high: numbers[1],
    }
}

// Puts the range of row k.
#[inline]
pub(crate) fn put_range(ranges: &mut [i64], k: usize, r: Range)
    requires { range_width * k + range_width ≤ length ranges.old }
    ensures { ranges.new ≡ paste ranges.old (range_width * k) (range_numbers r) range_width }
{
    put_numbers(ranges, RANGE_WIDTH * k, &[r.low, r.high]);
}

// Whether rows j and k of the table have the same numbers.
#[tactic(auto, using(crate::proofs::RowParts::same_by_parts))]
pub fn same_rows(table: &[i64], j: usize, k: usize) -> bool
    requires { (row_width * j + row_width ≤ length table.now) × (row_width * k + row_width ≤ length table.now) }
    ensures { result ≡ same (row_at table.now j) (row_at table.now k) }
{
    affine::sums::same_numbers(part::<ROW_WIDTH>(table, j), part::<ROW_WIDTH>(table, k))
}
