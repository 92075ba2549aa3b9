// What the words of a call say: the numbers behind the formula, and the inputs that they are.
ghost use Rattle.std.specs.Prelude.{◌≡◌, ◌↔◌, ◌-◌, ◌^◌, ◌<◌, ℕ, ℤ, List, Some, length, take, IfOk};
ghost use Rattle.formula.specs.Words.{IsNumber, NumberAt, Holds, NumbersGiven, InputsGiven, inputs_of};

use formulas::InputBlock;
use sheet::{End, MAX_INPUTS};
use streams::Words;

// One byte more than the longest number, a minus and ten digits: that a word is longer is noticed, and what lies behind is not looked at.
const WORD_ROOM: usize = 12;

// The position of the first number, the squares; the ends stand behind it.
const SQUARES: usize = 2;

// The squares, and both ends of as many inputs as there may be.
const NUMBERS_ROOM: usize = 1 + 2 * MAX_INPUTS;

// Why a call is wrong: there is no formula, or no number behind it; the word at a position is no number; the last low end, at a position, has no high end.
#[derive(Clone, Copy)]
pub(crate) enum WrongCall {
    NoFormula,
    NoSquares,
    NoNumber(usize),
    NoHighEnd(usize),
}

// The numbers of a call: those that there is room for, zeros behind them, and how many there are.
#[derive(Clone, Copy)]
struct Numbers {
    first: [i64; NUMBERS_ROOM],
    count: usize,
}

// The number that a word is, written as on a sheet, of whose bytes these were taken: all that there is room for.
fn number_of(taken: &[u8]) -> Option<i64>
    ensures { (word : List ℕ) → take WORD_ROOM word ≡ taken.now → (z : ℤ) → (result ≡ Some z) ↔ IsNumber word z }
{
    let n = taken.len();
    if n >= WORD_ROOM {
        return None;
    }
    let mut field = [0u8; WORD_ROOM];
    let end = sheet::put_bytes(&mut field, 0, taken);
    sheet::put_bytes(&mut field, end, b"\n");
    let number = sheet::field_at(&field, 0, b'\n')?;
    (number.next == n + 1).then_some(number.value)
}

// The number at a position, or none behind the last word.
fn number_at<A: Words>(words: &A, i: usize) -> Result<Option<i64>, WrongCall>
    ensures { (all : List (List ℕ)) → A.words words.now ≡ Some all → NumberAt all i result }
{
    let mut room = [0u8; WORD_ROOM];
    let Some(n) = words.word(i, &mut room) else {
        return Ok(None);
    };
    match number_of(&room[..n]) {
        Some(number) => Ok(Some(number)),
        None => Err(WrongCall::NoNumber(i)),
    }
}

// The numbers behind the formula.
fn numbers_given<A: Words>(words: &A) -> Result<Numbers, WrongCall>
    ensures given { (all : List (List ℕ)) → A.words words.now ≡ Some all → length all < 2 ^ 64 - 1 → NumbersGiven all result }
    ensures few { IfOk result (λ numbers. numbers.count < 2 ^ 64 - 2) }
{
    let mut first = [0i64; NUMBERS_ROOM];
    // by position: a word is asked for by its position. A proved loop ends, and nothing says that the words do: no run gets to the last position.
    for i in SQUARES..usize::MAX {
        let count = i - SQUARES;
        let Some(number) = number_at(words, i)? else {
            return Ok(Numbers { first, count });
        };
        if count < NUMBERS_ROOM {
            first[count] = number;
        }
    }
    Ok(Numbers {
        first,
        count: usize::MAX - SQUARES,
    })
}

// The inputs that the numbers are: squares, and the ends of each in order. Of pairs that there is no room for the number is told.
fn inputs_of(numbers: &Numbers) -> Result<InputBlock, WrongCall>
    requires { numbers.now.count < 2 ^ 64 - 2 }
    ensures { (all : List ℤ) → Holds numbers.now.first numbers.now.count all → result ≡ inputs_of all }
{
    if numbers.count == 0 {
        return Err(WrongCall::NoSquares);
    }
    if numbers.count % 2 == 0 {
        return Err(WrongCall::NoHighEnd(numbers.count + 1));
    }
    let mut ends = [End::ZERO; MAX_INPUTS];
    for i in 0..MAX_INPUTS {
        ends[i] = End {
            low: numbers.first[2 * i + 1],
            high: numbers.first[2 * i + 2],
        };
    }
    Ok(InputBlock {
        inputs: (numbers.count / 2) as i64,
        squares: numbers.first[0],
        ends,
    })
}

// The inputs that stand behind the formula.
pub(crate) fn inputs_given<A: Words>(words: &A) -> Result<InputBlock, WrongCall>
    ensures { (all : List (List ℕ)) → A.words words.now ≡ Some all → length all < 2 ^ 64 - 1 → InputsGiven all result }
{
    inputs_of(&numbers_given(words)?)
}
