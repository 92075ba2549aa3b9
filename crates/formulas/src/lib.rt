// Formulas as they are typed, as `(a+8192)*b/c` (manual, section 7.12): a text becomes a schedule.
#![tactic(auto)]

ghost use Rattle.std.specs.Prelude.{◌≡◌, ◌↔◌, ◌⊎◌, ◌<◌, ◌-◌, ◌++◌, ℕ, List, length, Ok, Err, IsOk, IfOk, IfErr};
ghost use Rattle.integer.specs.Fraction.{Fraction};
ghost use Rattle.sheet.specs.Causes.{accepted};
ghost use Rattle.sheet.specs.Lines.{natural};
ghost use Rattle.sheet.specs.Results.{refusal_of, read_answer};
ghost use Rattle.sheet.specs.Writing.{test_of};
ghost use Rattle.sheet.specs.declared.causes.Cause.TheVariants.{CountWrong, EndWrong, StepWrong, NoFormula, StepCount};
ghost use Rattle.evaluation.specs.Work.{row_count};
ghost use Rattle.evaluation.specs.Values.{exact_value};
ghost use Rattle.formulas.specs.Limits.{max_text};
ghost use Rattle.formulas.specs.Grammar.{Tree, Formula};
ghost use Rattle.formulas.specs.Values.{value, EachDivides};
ghost use Rattle.formulas.specs.Steps.{schedule_of};
ghost use Rattle.formulas.specs.Answer.{inputs_test, answer_of};
ghost use Rattle.formulas.specs.Claims.{Accepted, refused_at, WrongByte, LiteralBeyond, StepsBeyond, Reason};

use sheet::{End, MAX_INPUTS, Refused, Schedule};

pub mod claims; // claims.rt: formulas worked
mod tokens; // tokens.rt: what a byte of a formula is
mod literals; // literals.rt: literals, and the first that is beyond the limits
mod steps; // steps.rt: steps put one behind another
mod builder; // builder.rt: a formula read into steps
mod answers; // answers.rt: what the call answers

// The limits of a formula; specs/Limits.antt has the same for definitions and laws.
pub const MAX_TEXT: usize = 200;

pub const MAX_NESTING: usize = 16;

// What stands beside a formula: how many inputs there are, how many of them have square terms, and the ends of each. A count beside an array, and no Vec:
// in fixed memory, and any count may be handed over. Not compared: what lies beyond the counts means nothing.
#[derive(Clone, Copy, Debug)]
pub struct InputBlock {
    pub inputs: i64,
    pub squares: i64,
    pub ends: [End; MAX_INPUTS],
}

// The signs of a formula.
#[derive(Clone, Copy)]
pub(crate) enum Sign {
    Plus,
    Minus,
    Times,
    Over,
}

impl Sign {
    ghost use Rattle.formulas.specs.Grammar.{rank_of};

    // Products before sums. A number: what stands behind a sign is a part of the rank below.
    fn rank(self) -> usize
        ensures { result ≡ rank_of self }
    {
        match self {
            Sign::Times | Sign::Over => 1,
            Sign::Plus | Sign::Minus => 2,
        }
    }
}

// What a byte of a formula is; a letter by its input, counted from 0. `Other` and no `Option`: what reading means tells by cases what each token does.
#[derive(Clone, Copy)]
pub(crate) enum Token {
    Digit(u64),
    Letter(usize),
    Operator(Sign),
    Opening,
    Closing,
    Other,
}

// Reads a formula: any inputs, any bytes, of any length. What is promised besides the answer follows of it.
#[tactic(auto, using(crate::proofs::OneReading::one_reading, crate::proofs::CallClaims::accepts, crate::proofs::CallClaims::passes, crate::proofs::CallClaims::same_value, crate::proofs::Divides::each_divides, crate::proofs::CallClaims::reason, crate::proofs::CallClaims::long_text))]
pub fn read(block: InputBlock, text: &[u8]) -> Result<Schedule, Refused>
    ensures answer { read_answer result ≡ answer_of block text.now }

    // What is accepted: a formula has one tree, and its schedule passes and has its value.
    ensures one_reading { (t u : Tree) → Formula (natural block.inputs) text.now t
        → Formula (natural block.inputs) text.now u → t ≡ u }
    ensures accepts { IsOk result ↔ ((t : Tree) × Accepted block text.now t) }
    ensures schedule { (t : Tree) → Accepted block text.now t → result ≡ Ok (schedule_of block t) }
    ensures passes { IfOk result (λ c. test_of c ≡ accepted) }
    ensures same_value { IfOk result (λ c. (t : Tree) → Formula (natural block.inputs) text.now t
        → (x : ℕ → Fraction) → exact_value c x (row_count c - 1) ≡ value x t) }
    ensures divides { (t : Tree) → Formula (natural block.inputs) text.now t
        → (x : ℕ → Fraction) → EachDivides x t }

    // Each refusal, and when it comes: 3 and 4, 10, 5, 11.
    ensures wrong_inputs { (r : Refused) → ((result ≡ Err r) × ((r.cause ≡ CountWrong) ⊎ (r.cause ≡ EndWrong)))
        ↔ (refusal_of r ≡ inputs_test block) }
    ensures wrong_byte { (place : ℕ) → (result ≡ Err (refused_at NoFormula place))
        ↔ WrongByte block text.now place }
    ensures literal_beyond { (place : ℕ) → (result ≡ Err (refused_at StepWrong place))
        ↔ LiteralBeyond block text.now place }
    ensures steps_beyond { (result ≡ Err (refused_at StepCount 0)) ↔ StepsBeyond block text.now }

    ensures refused { IfErr result (Reason block text.now) }

    // Of a text that is too long, whatever follows changes nothing.
    ensures beginning_tells { max_text < length text.now
        → (rest : List ℕ) → read_answer result ≡ answer_of block (text.now ++ rest) }
{
    answers::answer(block, text)
}
