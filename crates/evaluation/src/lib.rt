// Evaluation of a schedule into two lent tables, its rows and their ranges, and what is asked about them (manual, sections 6 and 7).
// Tables, counts and rows are handed over one by one, as the specification has its calls.
#![tactic(auto)]

mod answered; // answered.rt: the answered ranges, each the overlap of a row's own range and its plain one
mod operation; // operation.rt: what a step does, by its code
mod asking; // asking.rt: refusals 9, 8 and 6 of a row asked for
mod earlier; // earlier.rt: the rows before a step's, with their ranges and radii
mod steps; // steps.rt: the row of a step, from the rows before it
pub mod claims; // claims.rt: what is claimed of the definitions that contracts cite
pub mod table; // table.rt: rows and ranges read from tables of numbers, put into them, and rows compared there
mod work; // work.rt: all rows and their own ranges, one after another

ghost use Rattle.std.specs.Prelude.{◌≡◌, ◌≢◌, ◌↔◌, ◌-◌, [], length, ◌≤ℤ◌, OnOk, IfOk, IsTrue};
ghost use Rattle.sheet.specs.Causes.{accepted};
ghost use Rattle.sheet.specs.Results.{tested};
ghost use Rattle.evaluation.specs.Table.{row_width, row_part, range_at, table_after, ranges_after};
ghost use Rattle.evaluation.specs.Work.{evaluated};
ghost use Rattle.evaluation.specs.Ranges.{answered_ranges};
ghost use Rattle.evaluation.specs.Asking.{row_refusal, range_of, same_of, part_of, ToldByRange};
ghost use Rattle.evaluation.specs.Answers.{range_answer, same_answer};
ghost use Rattle.evaluation.specs.Demand3.{Guaranteed};
ghost use Rattle.evaluation.specs.TablesHeld.{TablesHeld};
ghost use Rattle.evaluation.specs.NeverEmpty.{NeverEmpty};
ghost use Rattle.evaluation.specs.Unused.{AllUnusedAreZero};

use affine::Range;
use sheet::{Refused, Schedule};

// How many rows a schedule has, for those who ask about them.
pub use work::row_count;

// Evaluates a schedule into the lent tables, the rows into the first and their answered ranges into the second: any schedule, any tables. After 6, 7 or 12
// the rows before the place are written in both, and no other number is.
pub fn evaluate(schedule: Schedule, table: &mut [i64], ranges: &mut [i64]) -> Result<(), Refused>
    ensures answer { tested result ≡ (evaluated schedule table.old ranges.old).refusal }
    ensures left { table.new ≡ table_after (evaluated schedule table.old ranges.old).rows table.old }
    ensures told { ranges.new ≡ ranges_after (answered_ranges schedule (evaluated schedule table.old ranges.old).rows) ranges.old }
    ensures guaranteed { OnOk result (Guaranteed schedule (evaluated schedule table.old ranges.old).rows table.new ranges.new) }
    ensures held { OnOk result (TablesHeld schedule table.new ranges.new) }

    // of every row that was worked, before a refusal, too
    ensures never_empty { NeverEmpty schedule (evaluated schedule table.old ranges.old).rows ranges.new }
    ensures unused { AllUnusedAreZero schedule (evaluated schedule table.old ranges.old).rows }
{
    sheet::test(schedule)?;
    let rows = row_count(schedule);
    asking::test_room::<{ table::ROW_WIDTH }>(table, rows)?;
    asking::test_room::<{ table::RANGE_WIDTH }>(ranges, rows)?;
    let done = work::work_rows(schedule, table, ranges, rows);
    // all rows were worked, or those before the place of a refusal
    let worked = match done {
        Ok(()) => rows,
        Err(refused) => refused.place - 1,
    };
    answered::narrow(schedule, ranges, worked);
    done
}

// The range of a row, from tables that hold so many rows and their ranges.
pub fn range(table: &[i64], ranges: &[i64], count: usize, row: usize) -> Result<Range, Refused>
    ensures answer { range_answer result ≡ range_of table.now ranges.now count row }
    ensures reads { IfOk result (λ r. r ≡ range_at ranges.now (row - 1)) }
    ensures ordered { IfOk result (λ r. r.low ≤ℤ r.high) }
{
    asking::test_range(table, ranges, count, row)?;
    Ok(table::get_range(ranges, row - 1))
}

// The part of the lent table that holds a row; an empty part where the row is refused. Why it is, `range` tells.
pub fn row(table: &[i64], count: usize, row: usize) -> &[i64]
    ensures answer { result.now ≡ part_of table.now count row }
    ensures whole { (length result.now ≡ row_width) ↔ (row_refusal table.now count row ≡ accepted) }
    ensures empty { (result.now ≡ []) ↔ ((row_refusal table.now count row).number ≢ 0) }
    ensures told_by_range { (result.now ≡ []) → ToldByRange table.now count row }
{
    match asking::test_row(table, count, row) {
        Ok(()) => table::row_part(table, row - 1),
        Err(_) => &table[..0],
    }
}

// Whether two rows of one table have the same numbers. Like `range` it is a test and then an answer, but both are its own.
pub fn same(table: &[i64], count: usize, first: usize, second: usize) -> Result<bool, Refused>
    ensures answer { same_answer result ≡ same_of table.now count first second }
    ensures exactly { IfOk result (λ yes. IsTrue yes ↔ (row_part table.now (first - 1) ≡ row_part table.now (second - 1))) }
{
    asking::test_rows(table, count, first, second)?;
    Ok(table::same_rows(table, first - 1, second - 1))
}
