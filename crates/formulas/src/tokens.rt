// What a byte of a formula is.
ghost use Rattle.std.specs.Prelude.{◌≡◌};
ghost use Rattle.formulas.specs.Reading.{token_of, mark_of, letter_of};
ghost use Rattle.formulas.specs.Built as Spec;

use crate::{Sign, Token};

// The sign that a byte is.
fn sign_of(b: u8) -> Option<Sign>
    ensures { result ≡ Spec.sign_of b }
{
    match b {
        b'+' => Some(Sign::Plus),
        b'-' => Some(Sign::Minus),
        b'*' => Some(Sign::Times),
        b'/' => Some(Sign::Over),
        _ => None,
    }
}

// The same, if its rank is at most this.
pub(crate) fn sign_within(rank: usize, b: u8) -> Option<Sign>
    ensures { result ≡ Spec.sign_within rank b }
{
    sign_of(b).filter(|sign| sign.rank() <= rank)
}

// The letter of one of so many inputs, or nothing of a formula.
#[tactic(auto, unfolding(crate::specs::Reading::letter_of))]
fn letter_of(inputs: usize, b: u8) -> Token
    ensures { result ≡ letter_of inputs b }
{
    match b.checked_sub(b'a').map(usize::from) {
        Some(i) if i < inputs => Token::Letter(i),
        _ => Token::Other,
    }
}

// A bracket or a sign, or else a letter.
#[tactic(auto, unfolding(crate::specs::Reading::mark_of))]
fn mark_of(inputs: usize, b: u8) -> Token
    ensures { result ≡ mark_of inputs b }
{
    match b {
        b'(' => Token::Opening,
        b')' => Token::Closing,
        _ => match sign_of(b) {
            Some(sign) => Token::Operator(sign),
            None => letter_of(inputs, b),
        },
    }
}

// What a byte is, over so many inputs.
#[tactic(auto, unfolding(crate::specs::Reading::token_of))]
pub(crate) fn token_of(inputs: usize, b: u8) -> Token
    ensures { result ≡ token_of inputs b }
{
    match sheet::digit(b) {
        Some(d) => Token::Digit(d),
        None => mark_of(inputs, b),
    }
}
