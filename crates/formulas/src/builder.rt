// A formula read into steps: the reader goes into each pair of brackets by calling itself, with one pair less to go.
// Text and steps come apart, since the text stays while the steps grow: a struct of both would need a clause more for that. The text stands with a position, and not
// as what is left of it: specs/Built.antt says by positions what was read.
ghost use Rattle.std.specs.Prelude.{◌≡◌, suc, ◌<◌, length};
ghost use Rattle.formulas.specs.Built as Spec;

use crate::steps::Steps;
use crate::{MAX_NESTING, MAX_TEXT, Token, literals, steps, tokens};

// A part of a formula that was read: the position behind it, and the row that it is. No `Found`: the name says that the number is a row's.
#[derive(Clone, Copy)]
pub(crate) struct Part {
    pub next: usize,
    pub row: usize,
}

// The place of a byte that no formula has there.
#[derive(Clone, Copy)]
pub(crate) struct Wrong {
    pub place: usize,
}

// The byte at this position is one that no formula has there. Where it is refused stand `if` and `return`: `ensure` makes a refusal with its cause.
fn wrong_at(at: usize) -> Wrong
    requires { at < 1000 }
    ensures { result.place ≡ suc at }
{
    Wrong { place: at + 1 }
}

// The literal at a position becomes a constant step.
#[tactic(auto, using(crate::proofs::LiteralReads::literal_small))]
fn constant(text: &[u8], at: usize, steps: &mut Steps) -> Part
    requires { Spec.Small text.now at steps.old × (at < length text.now) }
    ensures { Spec.Constant text.now at steps.old steps.new result }
{
    let literal = literals::literal_at(text, at);
    steps.push(steps::step_of(1, 0, 0, literal.value));
    steps.beyond = literals::beyond_with(steps.beyond, literal.value, at);
    Part {
        next: literal.next,
        row: steps.last_row(),
    }
}

// The operand at a position: a literal, a letter, or what stands in brackets, of which so many may still be opened.
#[cycle(chain_operand)]
fn operand(text: &[u8], at: usize, depth: usize, steps: &mut Steps) -> Result<Part, Wrong>
    requires { Spec.Small text.now at steps.old }
    ensures { Spec.PartRead text.now steps.old.inputs 0 depth at steps.old steps.new result }
{
    match tokens::token_of(steps.inputs, sheet::byte(text, at)) {
        Token::Digit(_) => Ok(constant(text, at, steps)),
        Token::Letter(i) => Ok(Part {
            next: at + 1,
            row: i + 1,
        }),
        Token::Opening => {
            if depth == 0 {
                return Err(wrong_at(at));
            }
            let inner = chain(text, at + 1, 2, depth - 1, steps)?;
            if sheet::byte(text, inner.next) != b')' {
                return Err(wrong_at(inner.next));
            }
            Ok(Part {
                next: inner.next + 1,
                row: inner.row,
            })
        }
        Token::Operator(_) | Token::Closing | Token::Other => Err(wrong_at(at)),
    }
}

// The part of a rank at a position: an operand, and then sign and part as long as a sign of the rank or below follows. What stands behind a sign is a part of
// the rank below the sign's.
#[cycle(chain_operand)]
fn chain(
    text: &[u8],
    at: usize,
    rank: usize,
    depth: usize,
    steps: &mut Steps,
) -> Result<Part, Wrong>
    requires { Spec.Small text.now at steps.old }
    ensures { Spec.PartRead text.now steps.old.inputs rank depth at steps.old steps.new result }
{
    let mut left = operand(text, at, depth, steps)?;
    // no index is counted: how many signs follow is seen byte by byte
    while let Some(sign) = tokens::sign_within(rank, sheet::byte(text, left.next)) {
        let right = chain(text, left.next + 1, sign.rank() - 1, depth, steps)?;
        steps.push_sign(sign, left.row, right.row);
        left = Part {
            next: right.next,
            row: steps.last_row(),
        };
    }
    Ok(left)
}

// The whole text as a formula, its steps put into none: a byte behind it, or a 201st, is one that no formula has there.
pub(crate) fn whole(text: &[u8], steps: &mut Steps) -> Result<(), Wrong>
    requires { steps.old ≡ Spec.no_steps steps.old.inputs steps.old.few_inputs }
    ensures { Spec.Whole text.now steps.old.inputs steps.new result }
{
    let end = text.len().min(MAX_TEXT);
    let part = chain(&text[..end], 0, 2, MAX_NESTING, steps)?;
    if part.next < text.len() {
        return Err(wrong_at(part.next));
    }
    Ok(())
}
