// Makes a sheet of a formula that stands among its arguments, with its inputs behind it, and prints the sheet or the refusal (manual, section 3.6):
// all bytes are ready before the first is written. What a wrong call lacks is told on standard error.
#![tactic(auto)]

ghost use Rattle.std.specs.Prelude.{◌≡◌, ◌≢◌, ◌^◌, ◌-◌, ◌<◌, ℕ, List, Some, length, take, OnOk, OnErr, IfErr};
ghost use Rattle.std.specs.IoError.{error_kind};
ghost use Rattle.std.specs.Io.KnownBytes.{Appends};
ghost use Rattle.std.specs.Process.{exit_status};
ghost use Rattle.streams.specs.Count.{AppendsBeginning};
ghost use Rattle.formula.specs.Printed.{printed, Printed};
ghost use Rattle.formula.specs.Call.{Ended, OnCall, OnWrite, status_of};

use crate::call::WrongCall;
use formulas::InputBlock;
use listing::TEXT_ROOM;
use std::env::Env;
use std::io::{self, ErrorKind, Write};
use std::process::ExitCode;
use streams::{Arguments, Asked, SHOWN_ROOM, Words};

mod call; // call.rt: what they say

// One byte more than a formula may have: that a formula is longer is noticed, and what lies behind is not looked at.
const FORMULA_ROOM: usize = formulas::MAX_TEXT + 1;
// The position of the formula among the words.
const FORMULA: usize = 1;

const HELP: &str = "Makes the schedule sheet of a formula and prints it, or the refusal.

  formula FORMULA SQUARES LOW HIGH LOW HIGH ...
  formula --help     prints this
  formula --version  prints the version

FORMULA   letters a, b, .. for the inputs, literals, + - * / and round brackets
SQUARES   how many of the inputs, from the first on, have square terms
LOW HIGH  the ends of each input, in the order of their letters

As formula '(a+8192)*b' 2 -512 512 4096 8192. Numbers are written as on a sheet.

The exit status is 0 where a sheet, a refusal, this or the version was printed, 1 where a write failed, and 2 after a wrong call.
";

const VERSION: &str = "formula (Doqhuymi) 1.7.0\n";

// Why nothing, or not all, was printed: the call is wrong, or a write failed.
#[derive(Drop)]
enum Failure {
    Call(WrongCall),
    Write(io::Error),
}

// Writes what is printed for a formula of which these bytes were taken: all of it that there is room for. Answers a length, and not the slice: the contract says
// of all the bytes what they hold afterwards. The text has room for every sheet, so no 0 is answered.
fn put_text(block: InputBlock, taken: &[u8], text: &mut [u8; TEXT_ROOM]) -> usize
    ensures { Printed block FORMULA_ROOM taken.now text.old text.new result }
{
    match formulas::read(block, taken) {
        Ok(schedule) => sheet::write(schedule, text).unwrap_or(0),
        Err(refused) => listing::put_refusal(text, refused.cause.number(), refused.place),
    }
}

// Writes all of that to a writer.
fn print_to<W: Write>(writer: &mut W, block: InputBlock, taken: &[u8]) -> io::Result<()>
    ensures whole { (formula : List ℕ) → take FORMULA_ROOM formula ≡ taken.now
        → OnOk result (Appends (W.contents writer.old) (W.contents writer.new) (printed block formula)) }
    ensures beginning { (formula : List ℕ) → take FORMULA_ROOM formula ≡ taken.now
        → OnErr result (AppendsBeginning (W.contents writer.old) (W.contents writer.new) (printed block formula)) }
    ensures retried { IfErr result (λ e. error_kind e ≢ ErrorKind.Interrupted) }
{
    let mut text = [0u8; TEXT_ROOM];
    let length = put_text(block, taken, &mut text);
    streams::write_all(writer, &text[..length])
}

// The program's work, over any words and any writer: what is printed for the formula and the inputs of a call.
fn run<A: Words, W: Write>(words: &A, writer: &mut W) -> Result<(), Failure>
    ensures ended { (all : List (List ℕ)) → A.words words.now ≡ Some all → length all < 2 ^ 64 - 1
        → Ended all (W.contents writer.old) (W.contents writer.new) result }
    ensures wrong_call { IfErr result (OnCall (writer.new ≡ writer.old)) }
    ensures retried { IfErr result (OnWrite (λ e. error_kind e ≢ ErrorKind.Interrupted)) }
{
    let mut room = [0u8; FORMULA_ROOM];
    let Some(n) = words.word(FORMULA, &mut room) else {
        return Err(Failure::Call(WrongCall::NoFormula));
    };
    match call::inputs_given(words) {
        Ok(block) => print_to(writer, block, &room[..n]).map_err(Failure::Write),
        Err(wrong) => Err(Failure::Call(wrong)),
    }
}

// Tells on standard error what a wrong call lacks.
fn tell<E: Env + Eprint>(rt: &E, wrong: WrongCall) -> ExitCode
    ensures { exit_status result ≡ 2 }
{
    let mut room = [0u8; SHOWN_ROOM];
    let words = Arguments { rt };
    match wrong {
        WrongCall::NoFormula => {
            return streams::wrong_call(rt, "formula: no formula is given: see formula --help");
        }
        WrongCall::NoSquares => {
            return streams::wrong_call(
                rt,
                "formula: no squares are given (argument 2): see formula --help",
            );
        }
        WrongCall::NoNumber(i) => {
            let word = streams::shown(&words, i, &mut room);
            let _ = eprintln!(rt;
                "formula: '{word}' is no number of a sheet (argument {i}): see formula --help"
            );
        }
        WrongCall::NoHighEnd(i) => {
            let word = streams::shown(&words, i, &mut room);
            let _ = eprintln!(rt;
                "formula: the low end '{word}' has no high end (argument {i}): see formula --help"
            );
        }
    }
    ExitCode::from(2)
}

// Ends the program: a wrong call and a failed write are told on standard error.
fn end<E: Env + Eprint>(rt: &E, not_written: &str, ended: Result<(), Failure>) -> ExitCode
    ensures { exit_status result ≡ status_of ended }
{
    match ended {
        Ok(()) => ExitCode::SUCCESS,
        Err(Failure::Call(wrong)) => tell(rt, wrong),
        Err(Failure::Write(e)) => streams::fail(rt, not_written, e),
    }
}

fn main(rt: HostRuntime) -> ExitCode {
    match streams::asked_by_words(&Arguments { rt: &rt }) {
        Asked::Help => {
            let ended = streams::write_text(&mut rt.stdout(), HELP).map_err(Failure::Write);
            end(&rt, "formula: cannot write the help", ended)
        }
        Asked::Version => {
            let ended = streams::write_text(&mut rt.stdout(), VERSION).map_err(Failure::Write);
            end(&rt, "formula: cannot write the version", ended)
        }
        Asked::Nothing | Asked::Other => {
            let ended = run(&Arguments { rt: &rt }, &mut rt.stdout());
            end(&rt, "formula: cannot write the sheet", ended)
        }
    }
}
