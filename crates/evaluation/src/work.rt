// All rows of a schedule, one after another, into a table, and their own ranges into a second one. That the schedule passed its test is asked here and by
// `narrow`, in clauses that also say how many rows are worked: a type of such schedules would leave these clauses standing.
ghost use Rattle.std.specs.Prelude.{◌≡◌, ◌*◌, ◌≤◌, ◌<◌, length};
ghost use Rattle.affine.specs.Steps as affine_steps;
ghost use Rattle.affine.specs.Told.{status_of, answer_of};
ghost use Rattle.sheet.specs.Results.{number, tested};
ghost use Rattle.sheet.specs.Passed.{Passed};
ghost use Rattle.evaluation.specs.Table.{row_width, range_width, rows_in, ranges_in, table_after, ranges_after};
ghost use Rattle.evaluation.specs.Ranges.{own_ranges, operand_ranges};
ghost use Rattle.evaluation.specs.Work.{row_count, row_answer, worked};

use crate::earlier::Earlier;
use crate::steps::step_row;
use crate::table::{put_range, put_row};
use affine::operands::Symbols;
use affine::{Made, NoRow};
use capacity::{MAX_INPUTS, MAX_ROWS};
use sheet::{Cause, Refused, Schedule};

// The cause that stands for an operation without a row (manual, section 6). A function and no `From`: both types are other crates'.
fn cause_of(no_row: NoRow) -> Cause
    ensures { number result ≡ affine_steps.number (status_of no_row) }
{
    match no_row {
        NoRow::SpanPassed => Cause::SpanPassed,
        NoRow::ZeroInRange => Cause::ZeroInRange,
        NoRow::NoRoot => Cause::NoRoot,
    }
}

// How many rows a schedule has: any schedule.
pub fn row_count(c: Schedule) -> usize
    ensures { result ≡ row_count c }
{
    sheet::natural(c.inputs) + sheet::natural(c.steps)
}

// The row behind those before it: an input's, or a step's. The schedule is lent: handed over by value it is copied for each row.
#[inline]
fn next_row(c: &Schedule, earlier: &Earlier) -> Result<Made, NoRow>
    requires passed { Passed c.now × (earlier.now.count < row_count c.now) }
    requires own { ranges_in earlier.now.ranges.now earlier.now.count ≡ operand_ranges c.now (rows_in earlier.now.table.now earlier.now.count) }
    ensures { answer_of result ≡ row_answer c.now (rows_in earlier.now.table.now earlier.now.count) }
{
    let i = earlier.count;
    let inputs = c.inputs as usize;
    if i < inputs {
        affine::steps::input(i, c.ends[i].low, c.ends[i].high)
    } else {
        // the bound, which the schedule's test has seen to, lets the compiler unroll the loops over the squares, wherever it compiles that test
        let symbols = Symbols {
            squares: (c.squares as usize).min(MAX_INPUTS),
            own: i,
        };
        step_row(earlier, c.step[i - inputs], symbols)
    }
}

// Works all rows, or those before a refusal.
pub(crate) fn work_rows(
    c: Schedule,
    table: &mut [i64],
    ranges: &mut [i64],
    rows: usize,
) -> Result<(), Refused>
    requires passed { Passed c × (rows ≡ row_count c) }
    requires rows_in_bounds { (row_width * rows ≤ length table.old) × (range_width * rows ≤ length ranges.old) }
    ensures answer { tested result ≡ (worked c rows).refusal }
    ensures left { table.new ≡ table_after (worked c rows).rows table.old }
    ensures own { ranges.new ≡ ranges_after (own_ranges c (worked c rows).rows) ranges.old }
{
    let mut radii = [0u64; MAX_ROWS];
    // by index: a row is made from the rows before it in the same tables
    for i in 0..rows {
        let earlier = Earlier {
            table,
            ranges,
            radii: &radii,
            count: i,
        };
        let made = next_row(&c, &earlier).map_err(|no_row| Refused {
            cause: cause_of(no_row),
            place: i + 1,
        })?;
        radii[i] = made.radius;
        put_range(ranges, i, made.range);
        put_row(table, i, &made.row);
    }
    Ok(())
}
