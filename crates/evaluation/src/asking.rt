// Asking about rows: 9, then 8, then 6, the lower row first. Tables, count and row are handed over one by one, as the specification has its calls.
ghost use Rattle.std.specs.Prelude.{false, IfOk, leb, ◌≡◌, ◌*◌, ◌^◌, ◌<◌, ◌≤◌, length};
ghost use Rattle.capacity.specs.Limits.{max_rows};
ghost use Rattle.affine.specs.Lists.{pick};
ghost use Rattle.sheet.specs.Causes.{accepted};
ghost use Rattle.sheet.specs.Results.{tested};
ghost use Rattle.evaluation.specs.Table.{row_width, range_width};
ghost use Rattle.evaluation.specs.Work.{table_too_short};
ghost use Rattle.evaluation.specs.Asking.{
  is_row,
  no_such_row,
  lent_row,
  lent_range,
  row_refusal,
  range_refusal,
  rows_refusal,
};

use crate::table::{RANGE_WIDTH, ROW_WIDTH, get_range, get_row};
use capacity::MAX_ROWS;
use sheet::{Cause, Refused, ensure};

// 9, of a row that is none of so many, or of more rows than a table may hold.
#[tactic(auto, using(crate::proofs::AskingLaws::tested_ensured, crate::proofs::AskingLaws::ensured_named))]
fn test_named(count: usize, row: usize) -> Result<(), Refused>
    ensures answer { tested result ≡ pick (pick (is_row count row) (leb count max_rows) false) accepted no_such_row }
    ensures named { IfOk result (λ u. (1 ≤ row) × (row ≤ count) × (count ≤ max_rows)) }
{
    ensure(
        (1..=count).contains(&row) && count <= MAX_ROWS,
        Cause::NoSuchRow,
        0,
    )
}

// 8, of a table that has so many numbers for each of so many rows.
#[tactic(auto, using(crate::proofs::AskingLaws::tested_ensured, crate::proofs::AskingLaws::ensured_room))]
pub(crate) fn test_room<const WIDTH: usize>(table: &[i64], count: usize) -> Result<(), Refused>
    requires { WIDTH * count < 2 ^ 64 }
    ensures answer { tested result ≡ pick (leb (WIDTH * count) (length table.now)) accepted table_too_short }
    ensures room { IfOk result (λ u. WIDTH * count ≤ length table.now) }
{
    ensure(WIDTH * count <= table.len(), Cause::RoomTooShort, 0)
}

// 6, of a row that the table holds. Rows are asked for by their numbers from 1: that a number is one stands here and below.
#[tactic(auto, using(crate::proofs::AskingLaws::tested_ensured))]
fn test_lent_row(table: &[i64], row: usize) -> Result<(), Refused>
    requires { (1 ≤ row) × (row_width * row ≤ length table.now) }
    ensures { tested result ≡ lent_row table.now row }
{
    ensure(
        affine::sums::within_span(get_row(table, row - 1)),
        Cause::SpanPassed,
        row,
    )
}

// 9, 8 and 6, of one row.
#[tactic(auto, using(crate::proofs::AskingLaws::stop_told, crate::proofs::AskingLaws::goes_on, crate::proofs::AskingLaws::row_tests))]
pub(crate) fn test_row(table: &[i64], count: usize, row: usize) -> Result<(), Refused>
    ensures { tested result ≡ row_refusal table.now count row }
{
    test_named(count, row)?;
    test_room::<ROW_WIDTH>(table, count)?;
    test_lent_row(table, row)
}

// 6, of a range that the second table holds.
#[tactic(auto, using(crate::proofs::AskingLaws::tested_ensured))]
fn test_lent_range(ranges: &[i64], row: usize) -> Result<(), Refused>
    requires { (1 ≤ row) × (range_width * row ≤ length ranges.now) }
    ensures { tested result ≡ lent_range ranges.now row }
{
    let range = get_range(ranges, row - 1);
    ensure(range.low <= range.high, Cause::SpanPassed, row)
}

// Of a row and its range: 9, 8 of either table, 6 of either.
#[tactic(auto, using(crate::proofs::AskingLaws::stop_told, crate::proofs::AskingLaws::goes_on, crate::proofs::AskingLaws::range_tests))]
pub(crate) fn test_range(
    table: &[i64],
    ranges: &[i64],
    count: usize,
    row: usize,
) -> Result<(), Refused>
    ensures { tested result ≡ range_refusal table.now ranges.now count row }
{
    test_named(count, row)?;
    test_room::<ROW_WIDTH>(table, count)?;
    test_room::<RANGE_WIDTH>(ranges, count)?;
    test_lent_row(table, row)?;
    test_lent_range(ranges, row)
}

// Of two rows: 9 of either, 8, and 6 of the lower row first.
#[tactic(auto, using(crate::proofs::AskingLaws::stop_told, crate::proofs::AskingLaws::goes_on, crate::proofs::AskingLaws::rows_tests))]
pub(crate) fn test_rows(
    table: &[i64],
    count: usize,
    first: usize,
    second: usize,
) -> Result<(), Refused>
    ensures { tested result ≡ rows_refusal table.now count first second }
{
    test_named(count, first)?;
    test_named(count, second)?;
    test_room::<ROW_WIDTH>(table, count)?;
    let lower = first.min(second);
    let higher = first.max(second);
    test_lent_row(table, lower)?;
    test_lent_row(table, higher)
}
