// What each line of a sheet holds, and where its numbers have their place in a schedule.
ghost use Rattle.std.specs.Prelude.{◌≡◌, ◌<◌, ◌^◌, IfSome, IfNone};
ghost use Rattle.sheet.specs.Lines as Spec;
ghost use Rattle.sheet.specs.Reading.{padded};

use crate::{End, Line, MAX_INPUTS, MAX_STEPS, Schedule, Step};

// A count as a natural number; one below 0 counts as 0.
pub fn natural(z: i64) -> usize
    ensures { result ≡ Spec.natural z }
{
    usize::try_from(z).unwrap_or(0)
}

// What text line n, from 1, of a sheet with so many inputs is.
#[tactic(auto, unfolding(crate::specs::Lines::line_of))]
fn line_of(inputs: usize, n: usize) -> Line
    ensures { result ≡ Spec.line_of inputs n }
{
    match n {
        0 | 1 => Line::CountNames,
        2 => Line::CountLine,
        3 => Line::EndNames,
        _ if n - 4 < inputs => Line::EndLine(n - 4),
        _ if n - 4 == inputs => Line::StepNames,
        _ => Line::StepLine(n - 5 - inputs, n - 5),
    }
}

impl Line {
    // How many numbers a line holds; a line of names holds none.
    pub(crate) fn width(self) -> usize
        ensures { result ≡ Spec.width self }
    {
        match self {
            Line::CountLine => 3,
            Line::EndLine(_) => 2,
            Line::StepLine(_, _) => 4,
            _ => 0,
        }
    }

    // The names of a line of names, with their line end.
    pub(crate) fn names(self) -> Option<&'static [u8]>
        ensures text { IfSome result (λ t. (Spec.width self ≡ 0) × (t.now ≡ Spec.names self)) }
        ensures none { IfNone result (0 < Spec.width self) }
    {
        match self {
            Line::CountNames => Some(b"inputs squares steps\n"),
            Line::EndNames => Some(b"low high\n"),
            Line::StepNames => Some(b"step first second value\n"),
            Line::CountLine | Line::EndLine(_) | Line::StepLine(_, _) => None,
        }
    }
}

impl Schedule {
    // How many inputs there are. As in `step_count`, one line over `natural`.
    pub(crate) fn input_count(&self) -> usize
        ensures { result ≡ Spec.natural self.now.inputs }
    {
        natural(self.inputs)
    }

    // How many steps there are.
    pub(crate) fn step_count(&self) -> usize
        ensures { result ≡ Spec.natural self.now.steps }
    {
        natural(self.steps)
    }

    // What text line n, from 1, of the schedule's sheet is.
    pub(crate) fn line_at(&self, n: usize) -> Line
        ensures { result ≡ Spec.line_at self.now n }
    {
        line_of(self.input_count(), n)
    }

    // How many text lines follow the first two.
    pub(crate) fn lines_left(&self) -> usize
        requires { Spec.lines_left self.now < 2 ^ 63 }
        ensures { result ≡ Spec.lines_left self.now }
    {
        self.input_count() + self.step_count() + 2
    }

    // The ends of input i, zeros beyond the room for inputs. Not one generic function with `step_at`: each is one line over the library's `get`.
    pub(crate) fn ends_at(&self, i: usize) -> &End
        ensures { result.now ≡ Spec.ends_at self.now i }
    {
        self.ends.get(i).unwrap_or(&End::ZERO)
    }

    // Step i, zeros beyond the room for steps.
    pub(crate) fn step_at(&self, i: usize) -> &Step
        ensures { result.now ≡ Spec.step_at self.now i }
    {
        self.step.get(i).unwrap_or(&Step::ZERO)
    }

    // The numbers that a line of the schedule's sheet holds, and zeros behind them: in fixed memory, and `width` tells how many count. A line of names holds none.
    #[tactic(auto, unfolding(crate::specs::Lines::numbers))]
    pub(crate) fn numbers(&self, l: Line) -> [i64; 4]
        ensures { result ≡ padded (Spec.numbers self.now l) }
    {
        match l {
            Line::CountLine => [self.inputs, self.squares, self.steps, 0],
            Line::EndLine(i) => {
                let e = self.ends_at(i);
                [e.low, e.high, 0, 0]
            }
            Line::StepLine(i, _) => {
                let t = self.step_at(i);
                [t.code, t.first, t.second, t.value]
            }
            _ => [0; 4],
        }
    }

    // Puts the numbers of a line in their place.
    #[tactic(auto, unfolding(crate::specs::Lines::store))]
    pub(crate) fn store(&mut self, l: Line, v: [i64; 4])
        ensures { self.new ≡ Spec.store self.old l v }
    {
        match l {
            Line::CountLine => {
                self.inputs = v[0];
                self.squares = v[1];
                self.steps = v[2];
            }
            // an index: with `get_mut` the proof stays open
            Line::EndLine(i) => {
                if i < MAX_INPUTS {
                    self.ends[i] = End::from(v);
                }
            }
            Line::StepLine(i, _) => {
                if i < MAX_STEPS {
                    self.step[i] = Step::from(v);
                }
            }
            _ => {}
        }
    }
}

// The ends that a line's numbers are.
impl From<[i64; 4]> for End {
    ghost from_gives = { λ v e. e ≡ Spec.ends_of v };

    fn from(v: [i64; 4]) -> End {
        let [low, high, _, _] = v;
        End { low, high }
    }
}

// The step that a line's numbers are.
impl From<[i64; 4]> for Step {
    ghost from_gives = { λ v t. t ≡ Spec.step_of v };

    fn from(v: [i64; 4]) -> Step {
        let [code, first, second, value] = v;
        Step {
            code,
            first,
            second,
            value,
        }
    }
}
