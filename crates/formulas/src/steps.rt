// The steps that are made, put one behind another.
ghost use Rattle.std.specs.Prelude.{◌≡◌, ◌+◌, ◌<◌, ◌≤◌, [], ◌∷◌};
ghost use Rattle.capacity.specs.Limits.{max_inputs};
ghost use Rattle.sheet.specs.Results.{tested};
ghost use Rattle.formulas.specs.Steps.{step_of, sign_steps};

use crate::Sign;
use sheet::{Cause, MAX_STEPS, Refused, Step, ensure};

// The steps made over so many inputs: those that a schedule has room for, how many there are, and the place of the first literal that is beyond the limits.
// An array with a count, and no Vec: in fixed memory, and steps beyond the room are counted too.
#[derive(Clone, Copy)]
pub(crate) struct Steps {
    pub inputs: usize,
    pub step: [Step; MAX_STEPS],
    pub count: usize,
    pub beyond: Option<usize>,
    pub ghost few_inputs: { inputs ≤ max_inputs },
}

// A step by its code, a number as a sheet's line has it. The bounds here and below stand in clauses: the numbers grow with each step, and the place in
// the text that bounds them is the caller's.
pub(crate) fn step_of(code: usize, first: usize, second: usize, value: u64) -> Step
    requires { (code < 1000) × (first < 1000) × (second < 1000) × (value < 1000000000) }
    ensures { result ≡ step_of code first second value }
{
    Step {
        code: code as i64,
        first: first as i64,
        second: second as i64,
        value: value as i64,
    }
}

impl Steps {
    ghost use Rattle.formulas.specs.Built as Spec;

    // No steps yet.
    pub(crate) fn new(inputs: usize) -> Steps
        requires { inputs ≤ max_inputs }
        ensures { (result.inputs ≡ inputs) × (result ≡ Spec.no_steps result.inputs result.few_inputs) }
    {
        Steps {
            inputs,
            step: [Step::ZERO; MAX_STEPS],
            count: 0,
            beyond: None,
        }
    }

    // The row of the last step.
    pub(crate) fn last_row(&self) -> usize
        requires { self.now.count < 1000 }
        ensures { result ≡ self.now.inputs + self.now.count }
    {
        self.inputs + self.count
    }

    // Puts a step behind the others; beyond the room that a schedule has it is only counted.
    pub(crate) fn push(&mut self, step: Step)
        requires { self.old.count < 1000 }
        ensures { self.new ≡ Spec.with_steps self.old (step ∷ []) }
    {
        // an index: with `get_mut` the proof stays open
        if self.count < MAX_STEPS {
            self.step[self.count] = step;
        }
        self.count += 1;
    }

    // The refusal by 5 of a literal beyond the limits, or by 11 of no steps or of more than there is room for.
    pub(crate) fn test(&self) -> Result<(), Refused>
        ensures { tested result ≡ Spec.steps_refusal self.now.beyond self.now.count }
    {
        match self.beyond {
            Some(place) => Err(Refused {
                cause: Cause::StepWrong,
                place,
            }),
            None => ensure((1..=MAX_STEPS).contains(&self.count), Cause::StepCount, 0),
        }
    }

    // Puts the steps of a sign between two rows.
    pub(crate) fn push_sign(&mut self, sign: Sign, left: usize, right: usize)
        requires { (self.old.count < 900) × (left < 1000) × (right < 1000) }
        ensures { self.new ≡ Spec.with_steps self.old (sign_steps sign (self.old.inputs + self.old.count) left right) }
    {
        match sign {
            Sign::Plus => self.push(step_of(2, left, right, 0)),
            Sign::Minus => self.push(step_of(3, left, right, 0)),
            Sign::Times => self.push(step_of(4, left, right, 0)),
            Sign::Over => {
                self.push(step_of(5, right, 0, 0));
                let reciprocal = self.last_row();
                self.push(step_of(4, left, reciprocal, 0));
            }
        }
    }
}
