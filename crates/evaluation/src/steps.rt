// The row of a step, made from the rows before it.
ghost use Rattle.std.specs.Prelude.{◌≡◌};
ghost use Rattle.affine.specs.Told.{answer_of};
ghost use Rattle.sheet.specs.Passed.{StepPassed};
ghost use Rattle.evaluation.specs.Table.{rows_in, ranges_in};
ghost use Rattle.evaluation.specs.Work.{step_answer};

use crate::earlier::Earlier;
use crate::operation::{Operation, operation_of};
use affine::operands::Symbols;
use affine::{Made, NoRow};
use sheet::Step;

// The new row owns the symbol behind those of the rows before it, so `symbols` has their count once more: the row operations ask for both its numbers together.
pub(crate) fn step_row(earlier: &Earlier, step: Step, symbols: Symbols) -> Result<Made, NoRow>
    requires next { symbols.own ≡ earlier.now.count }
    requires step_passed { StepPassed symbols.own step.code step.first step.second step.value }
    ensures { answer_of result ≡ step_answer symbols.squares (rows_in earlier.now.table.now symbols.own) (ranges_in earlier.now.ranges.now symbols.own) step }
{
    match operation_of(step) {
        Operation::Constant(value) => affine::steps::constant(value),
        Operation::Sum(i, j) => affine::steps::add(earlier.row(i), earlier.row(j), symbols.own),
        Operation::Difference(i, j) => {
            affine::steps::subtract(earlier.row(i), earlier.row(j), symbols.own)
        },
        Operation::Product(i, j) => {
            affine::product::multiply(earlier.operand(i), earlier.operand(j), symbols)
        }
        Operation::Reciprocal(i) => {
            affine::reciprocal::invert(earlier.operand(i), earlier.range(i), symbols)
        }
        Operation::Root(i) => affine::root::take_root(earlier.row(i), earlier.range(i), symbols),
    }
}
