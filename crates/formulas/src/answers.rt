// What the call answers: the test of the inputs, the refusal by 10, and the schedule of a text that is a formula.
ghost use Rattle.std.specs.Prelude.{◌≡◌, ◌≤◌};
ghost use Rattle.capacity.specs.Limits.{max_steps};
ghost use Rattle.sheet.specs.Lines.{natural};
ghost use Rattle.sheet.specs.Results.{tested, read_answer};
ghost use Rattle.sheet.specs.declared.causes.Cause.TheVariants.{NoFormula};
ghost use Rattle.formulas.specs.Grammar.{Tree};
ghost use Rattle.formulas.specs.Steps.{step_count, ends_within, schedule_of};
ghost use Rattle.formulas.specs.Answer;
ghost use Rattle.formulas.specs.Answer.{answer_of};
ghost use Rattle.formulas.specs.Built as Spec;

use crate::builder::Wrong;
use crate::steps::Steps;
use crate::{InputBlock, builder, steps};
use sheet::{Cause, End, MAX_INPUTS, MAX_STEPS, Refused, Schedule};

// 10, at the place of a byte that no formula has there.
impl From<Wrong> for Refused {
    ghost from_gives = { λ w r. (r.cause ≡ NoFormula) × (r.place ≡ w.place) };

    fn from(wrong: Wrong) -> Refused {
        Refused {
            cause: Cause::NoFormula,
            place: wrong.place,
        }
    }
}

// The ends of the inputs that the steps are made over, and zeros behind them.
fn ends_within(block: InputBlock, steps: &Steps) -> [End; MAX_INPUTS]
    ensures { result ≡ ends_within steps.now.inputs block.ends }
{
    let inputs = steps.inputs;
    let mut ends = [End::ZERO; MAX_INPUTS];
    ends[..inputs].copy_from_slice(&block.ends[..inputs]);
    ends
}

// Tests the inputs by 3 and 4.
#[tactic(auto, unfolding(crate::specs::Answer::sheet_of))]
fn inputs_test(block: InputBlock) -> Result<(), Refused>
    ensures { tested result ≡ Answer.inputs_test block }
{
    let ends = block.ends;
    sheet::test(Schedule {
        inputs: block.inputs,
        squares: block.squares,
        steps: 1,
        ends,
        step: [steps::step_of(1, 0, 0, 0); MAX_STEPS],
    })
}

// The schedule of steps that there is room for.
fn schedule_of(block: InputBlock, steps: &Steps) -> Schedule
    requires { (steps.now.inputs ≡ natural block.inputs) × (steps.now.count ≤ max_steps) }
    ensures { (t : Tree) → steps.now.count ≡ step_count t → steps.now.step ≡ Spec.steps_held steps.now.inputs t → result ≡ schedule_of block t }
{
    Schedule {
        inputs: block.inputs,
        squares: block.squares,
        steps: steps.count as i64,
        ends: ends_within(block, steps),
        step: steps.step,
    }
}

// What reading a formula answers.
#[tactic(auto, using(crate::proofs::InputsPass::few_inputs, crate::proofs::InputsPass::answer_text, crate::proofs::ReadAnswers::inputs_refused))]
pub(crate) fn answer(block: InputBlock, text: &[u8]) -> Result<Schedule, Refused>
    ensures { read_answer result ≡ answer_of block text.now }
{
    inputs_test(block)?;
    let mut steps = Steps::new(sheet::natural(block.inputs));
    builder::whole(text, &mut steps)?;
    steps.test()?;
    Ok(schedule_of(block, &steps))
}
