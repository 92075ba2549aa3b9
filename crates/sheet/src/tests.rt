// The tests 3, 4 and 5, of a line's numbers and of a schedule that is handed over.
ghost use Rattle.std.specs.Prelude.{◌≡◌, ℕ, ◌+◌, ◌<◌, ◌^◌, true, false, OnOk, IfErr};
ghost use Rattle.sheet.specs.Tests as Spec;
ghost use Rattle.sheet.specs.Results.{tested, fault_told};

use crate::{
    Cause, END_LIMIT, End, LAST_BINARY, LAST_CODE, Line, MAX_INPUTS, MAX_STEPS, Refused, Schedule,
    Step, ensure, natural,
};

// Whether z lies from a to b: a name for the library's method, since with three such tests in a row, written out, the proof of the counts stays open.
fn between(a: i64, z: i64, b: i64) -> bool
    ensures { result ≡ Spec.between a z b }
{
    (a..=b).contains(&z)
}

// Whether z lies within the limits of an end or a constant.
fn within_limit(z: i64) -> bool
    ensures { result ≡ Spec.within_limit z }
{
    between(-END_LIMIT, z, END_LIMIT)
}

// Whether counts stand within their limits. Three numbers and no struct: they are fields of a schedule, and no other function takes all three.
#[tactic(auto, unfolding(crate::specs::Tests::counts_pass))]
fn counts_pass(inputs: i64, squares: i64, steps: i64) -> bool
    ensures { result ≡ Spec.counts_pass inputs squares steps }
{
    between(1, inputs, MAX_INPUTS as i64)
        && between(0, squares, inputs)
        && between(1, steps, MAX_STEPS as i64)
}

impl Schedule {
    // Whether the schedule's counts stand within their limits.
    pub(crate) fn counts_pass(&self) -> bool
        ensures { result ≡ Spec.counts_pass self.now.inputs self.now.squares self.now.steps }
    {
        counts_pass(self.inputs, self.squares, self.steps)
    }
}

impl End {
    // Whether the ends of an input are within their limits and in order.
    #[tactic(auto, unfolding(crate::specs::Tests::ends_pass))]
    pub(crate) fn passes(&self) -> bool
        ensures { result ≡ Spec.ends_pass self.now.low self.now.high }
    {
        within_limit(self.low) && within_limit(self.high) && self.low <= self.high
    }
}

// Whether z names one of the rows 1 to earlier.
fn names_row(earlier: usize, z: i64) -> bool
    ensures { result ≡ Spec.names_row earlier z }
{
    (1..=earlier).contains(&natural(z))
}

impl Step {
    // Whether a step's fields are right where so many rows are earlier.
    #[tactic(auto, unfolding(crate::specs::Tests::step_passes))]
    pub(crate) fn passes(&self, earlier: usize) -> bool
        ensures { result ≡ Spec.step_passes earlier self.now.code self.now.first self.now.second self.now.value }
    {
        match *self {
            Step {
                code: 1,
                first: 0,
                second: 0,
                value,
            } => within_limit(value),
            Step {
                code: 2..=LAST_BINARY,
                first,
                second,
                value: 0,
            } => names_row(earlier, first) && names_row(earlier, second),
            Step {
                code: 5..=LAST_CODE,
                first,
                second: 0,
                value: 0,
            } => names_row(earlier, first),
            _ => false,
        }
    }
}

// Tests the numbers of text line n.
#[tactic(auto, unfolding(crate::specs::Tests::fault))]
pub(crate) fn test_line(l: Line, v: [i64; 4], n: usize) -> Result<(), Refused>
    ensures { tested result ≡ fault_told (Spec.fault l v) n }
{
    match l {
        Line::CountLine => ensure(counts_pass(v[0], v[1], v[2]), Cause::CountWrong, n),
        Line::EndLine(_) => ensure(End::from(v).passes(), Cause::EndWrong, n),
        Line::StepLine(_, earlier) => ensure(Step::from(v).passes(earlier), Cause::StepWrong, n),
        Line::CountNames | Line::EndNames | Line::StepNames => Ok(()),
    }
}

// Tests a block of so many lines, from text line `first` on: the first that does not pass is refused for the cause.
pub(crate) fn test_block<F: Fn(usize) -> bool>(
    first: usize,
    count: usize,
    cause: Cause,
    passes: F,
) -> Result<(), Refused>
    requires room { first + count < 2 ^ 63 }
    requires callable { (i : ℕ) → i < count → F.pre passes i }
    ensures none_fails { OnOk result ((i : ℕ) → i < count → F.post passes i true) }
    ensures first_fails { IfErr result (λ r. (i : ℕ) × (i < count) × (r ≡ record { cause = cause; place = first + i }) × F.post passes i false × ((k : ℕ) → k < i → F.post passes k true)) }
{
    // a loop, proved by one line: tried with `try_for_each`, both clauses stay open
    for i in 0..count {
        ensure(passes(i), cause, first + i)?;
    }
    Ok(())
}
