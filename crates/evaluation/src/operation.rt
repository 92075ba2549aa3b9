// What a step does: its code, with what the code uses.
ghost use Rattle.std.specs.Prelude.{◌≡◌, ◌-◌};
ghost use Rattle.sheet.specs.Lines.{natural};
ghost use Rattle.evaluation.specs.Operation.{Named, StepForm, Does};

use sheet::Step;

/// What a step does; the rows that it names, by their indices.
#[derive(Clone, Copy, Debug, PartialEq, Eq)]
pub(crate) enum Operation {
    Constant(i64),
    Sum(usize, usize),
    Difference(usize, usize),
    Product(usize, usize),
    Reciprocal(usize),
    Root(usize),
}

// The index of the row that a field names.
fn index(field: i64) -> usize
    requires { Named field }
    ensures { result ≡ natural field - 1 }
{
    field as usize - 1
}

// What a step with a code does whose fields name rows where the code uses them. Not `From`, which takes any step. A step keeps its code as a number, since
// any schedule may be handed over: evaluation reads it here alone.
pub(crate) fn operation_of(step: Step) -> Operation
    requires { StepForm step }
    ensures { Does result step }
{
    match step.code {
        1 => Operation::Constant(step.value),
        2 => Operation::Sum(index(step.first), index(step.second)),
        3 => Operation::Difference(index(step.first), index(step.second)),
        4 => Operation::Product(index(step.first), index(step.second)),
        5 => Operation::Reciprocal(index(step.first)),
        _ => Operation::Root(index(step.first)),
    }
}
