// Literals of a formula: the value of one, and the first that is beyond a constant's limits.
// The text stands with a position, as in `builder`.
ghost use Rattle.std.specs.Prelude.{◌≡◌, ◌≤◌, ◌<◌, length, drop};
ghost use Rattle.formulas.specs.Built as Spec;

use sheet::{END_LIMIT, Found};

// The greatest constant; cast, since a call in a constant's value is not supported.
const MOST: u64 = END_LIMIT as u64;

// The digits from a position on: their value, or one above the limit for every greater one. Capped, and no `Option`: the digits behind a value beyond
// the limits are read too, and the step of the literal is made all the same.
#[tactic(auto, using(crate::proofs::DigitRuns::digits_some, crate::proofs::DigitRuns::digits_none, crate::proofs::DigitRuns::digits_end))]
fn digits_from(text: &[u8], at: usize) -> Found<u64>
    requires { at ≤ length text.now }
    ensures { result ≡ Spec.digits_from 0 at (drop at text.now) }
{
    // by the position, which is part of the answer: with `enumerate` a sum of two stands for it. Not the sheet's digits, which stop before an eleventh.
    let mut value = 0;
    for next in at..text.len() {
        let Some(d) = sheet::digit(text[next]) else {
            return Found { value, next };
        };
        value = (value * 10 + d).min(MOST + 1);
    }
    Found {
        value,
        next: text.len(),
    }
}

// The literal at a position: 0 alone, or all digits from there on.
pub(crate) fn literal_at(text: &[u8], at: usize) -> Found<u64>
    requires { at < length text.now }
    ensures { result ≡ Spec.literal_at text.now at }
{
    if text[at] == b'0' {
        return Found {
            value: 0,
            next: at + 1,
        };
    }
    digits_from(text, at)
}

// The place of the first literal beyond a constant's limits: that of an earlier one, or of this value at a position.
pub(crate) fn beyond_with(beyond: Option<usize>, value: u64, at: usize) -> Option<usize>
    requires { at < 1000 }
    ensures { result ≡ Spec.beyond_with beyond value at }
{
    beyond.or((MOST < value).then_some(at + 1))
}
