// The answered ranges of rows: the overlap of each row's own range with its plain one.
ghost use Rattle.std.specs.Prelude.{◌≡◌, ◌-◌, ◌*◌, ◌≤◌, length};
ghost use Rattle.sheet.specs.Lines.{natural};
ghost use Rattle.sheet.specs.Passed.{Passed};
ghost use Rattle.evaluation.specs.Table.{range_width, range_at, ranges_in, ranges_after};
ghost use Rattle.evaluation.specs.Work.{row_count, worked};
ghost use Rattle.evaluation.specs.Ranges.{own_ranges, plain_step, answered_ranges, PlainOperands};

use crate::operation::{Operation, operation_of};
use crate::table::{get_range, put_range};
use affine::Range;
use sheet::{Schedule, Step};

// The plain range of a step's row, from the answered ranges of the rows before it, which stand in the second table. Arm by arm it is like
// `step_row`, but operations on ranges take other things, and refuse nothing.
fn plain_range(ranges: &[i64], t: Step) -> Range
    requires { PlainOperands ranges.now t }
    ensures { result ≡ plain_step t (range_at ranges.now (natural t.first - 1)) (range_at ranges.now (natural t.second - 1)) }
{
    match operation_of(t) {
        Operation::Constant(value) => Range {
            low: value,
            high: value,
        },
        Operation::Sum(i, j) => interval::sum(get_range(ranges, i), get_range(ranges, j)),
        Operation::Difference(i, j) => {
            interval::difference(get_range(ranges, i), get_range(ranges, j))
        }
        Operation::Product(i, j) => interval::product(get_range(ranges, i), get_range(ranges, j)),
        Operation::Reciprocal(i) => interval::reciprocal(get_range(ranges, i)),
        Operation::Root(i) => interval::root(get_range(ranges, i)),
    }
}

// Narrows the own ranges of so many rows, none of them refused, which the second table holds, to the answered ones. An input's plain range is its own.
pub(crate) fn narrow(c: Schedule, ranges: &mut [i64], rows: usize)
    requires passed { Passed c × (rows ≤ row_count c) × ((worked c rows).refusal.number ≡ 0) }
    requires rows_in_bounds { (range_width * rows ≤ length ranges.old) × (ranges_in ranges.old rows ≡ own_ranges c (worked c rows).rows) }
    ensures { ranges.new ≡ ranges_after (answered_ranges c (worked c rows).rows) ranges.old }
{
    let inputs = c.inputs as usize;
    // by index: a plain range is made from the ranges before it in the same table
    for i in 0..rows {
        let own = get_range(ranges, i);
        // an input's row or a step's, as in `next_row`, where a row is made of each
        let plain = if i < inputs {
            own
        } else {
            plain_range(ranges, c.step[i - inputs])
        };
        put_range(ranges, i, interval::overlap(own, plain));
    }
}
