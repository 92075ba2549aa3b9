// Reads a schedule sheet from standard input and prints its listing, or its refusal (manual, section 3): all bytes are ready before the first is
// written. Its only arguments are `--help` and `--version`, each alone.
#![tactic(auto)]

ghost use Rattle.std.specs.Prelude.{◌≡◌, ◌≢◌, ◌≤◌, ◌+◌, List, ℕ, Some, length, drop, is_ok, if◌then◌else◌, OnOk, OnErr, IfErr, IfSome};
ghost use Rattle.std.specs.IoError.{error_kind};
ghost use Rattle.std.specs.Io.KnownBytes.{Appends};
ghost use Rattle.std.specs.Process.{exit_status};
ghost use Rattle.streams.specs.Count.{AppendsBeginning};
ghost use Rattle.streams.specs.Failure.{reason, OnRead, OnWrite};
ghost use Rattle.sheet.specs.Limits.{max_bytes};
ghost use Rattle.sheet.specs.Wrote.{Wrote};
ghost use Rattle.listing.specs.Listing.{printed};
ghost use Rattle.listing.specs.Listed.{BeginningOf};
ghost use Rattle.ranges.specs.Printed.{PrintsTruth};

use capacity::MAX_ROWS;
use evaluation::table::{RANGE_WIDTH, ROW_WIDTH};
use listing::TEXT_ROOM;
use sheet::MAX_BYTES;
use std::env::Env;
use std::io::{self, ErrorKind, Read, Write};
use std::process::ExitCode;
use streams::{Arguments, Asked, Failure, SHOWN_ROOM, Words};

// One byte more than a sheet may have: that a sheet is longer is noticed, and what lies behind is not read.
const SHEET_ROOM: usize = MAX_BYTES + 1;

// Tables for as many rows as a sheet may have. In bench_evaluate too: `evaluation` has the widths, and takes tables of any length.
const TABLE_NUMBERS: usize = ROW_WIDTH * MAX_ROWS;

const RANGES_NUMBERS: usize = RANGE_WIDTH * MAX_ROWS;

const HELP: &str =
    "ranges            reads a schedule sheet from standard input and prints its listing or its refusal
ranges --help     prints this
ranges --version  prints the version

The exit status is 0 where that was printed, 1 where a read or a write failed, and 2 after a wrong call.
";

const VERSION: &str = "ranges (Doqhuymi) 1.7.0\n";

// Writes what is printed for an input of which these bytes were read: all of it that there is room for. It tells how many bytes, in fixed memory, and every
// byte behind them is as it was. So many bytes as the array has are never refused: the 0 stands for no answer.
fn list(read: &[u8], text: &mut [u8; TEXT_ROOM]) -> usize
    ensures within { result ≤ length text.new }
    ensures wrote { (input : List ℕ) → BeginningOf input read.now → Wrote text.old text.new 0 result (printed input) }
    ensures truthful { (input : List ℕ) → BeginningOf input read.now → PrintsTruth input }
{
    let mut table = [0i64; TABLE_NUMBERS];
    let mut ranges = [0i64; RANGES_NUMBERS];
    listing::list(read, &mut table, &mut ranges, text).unwrap_or(0)
}

// Prints what is printed for an input that begins with these bytes.
fn print_to<W: Write>(writer: &mut W, read: &[u8]) -> io::Result<()>
    ensures printed { (input : List ℕ) → BeginningOf input read.now
        → OnOk result (Appends (W.contents writer.old) (W.contents writer.new) (printed input)) }
    ensures failed { (input : List ℕ) → BeginningOf input read.now
        → OnErr result (AppendsBeginning (W.contents writer.old) (W.contents writer.new) (printed input)) }
    ensures truthful { (input : List ℕ) → BeginningOf input read.now → PrintsTruth input }
    ensures retried { IfErr result (λ e. error_kind e ≢ ErrorKind.Interrupted) }
{
    let mut text = [0u8; TEXT_ROOM];
    let length = list(read, &mut text);
    streams::write_all(writer, &text[..length])
}

// The program's work, over any reader and any writer.
fn run<R: Read, W: Write>(reader: &mut R, writer: &mut W) -> Result<(), Failure>
    ensures printed { IfSome (R.remaining reader.old) (λ input.
        OnOk result (Appends (W.contents writer.old) (W.contents writer.new) (printed input))) }
    ensures truthful { IfSome (R.remaining reader.old) (λ input. OnOk result (PrintsTruth input)) }

    // After a failure the output holds a beginning of that text. A write fails behind a reading that did not: the reader has left what lies behind the bytes
    // that there is room for. After a failed read nothing is written.
    ensures write_failed { IfSome (R.remaining reader.old) (λ input.
        IfErr result (λ f. OnWrite f (AppendsBeginning (W.contents writer.old) (W.contents writer.new) (printed input)))) }
    ensures read_all { IfSome (R.remaining reader.old) (λ input.
        IfErr result (λ f. OnWrite f (R.remaining reader.new ≡ Some (drop (max_bytes + 1) input)))) }
    ensures read_failed { IfErr result (λ f. OnRead f (writer.new ≡ writer.old)) }
    ensures retried { IfErr result (λ f. error_kind (reason f) ≢ ErrorKind.Interrupted) }
{
    let mut sheet = [0u8; SHEET_ROOM];
    match streams::read_input(reader, &mut sheet) {
        Ok(n) => print_to(writer, &sheet[..n]).map_err(Failure::Write),
        Err(e) => Err(Failure::Read(e)),
    }
}

// Ends the program: a failure is told on standard error.
fn end<P: Eprint>(rt: &P, not_written: &str, ended: Result<(), Failure>) -> ExitCode
    ensures { exit_status result ≡ if is_ok ended then 0 else 1 }
{
    match ended {
        Ok(()) => ExitCode::SUCCESS,
        Err(Failure::Read(e)) => streams::fail(rt, "ranges: cannot read the sheet", e),
        Err(Failure::Write(e)) => streams::fail(rt, not_written, e),
    }
}

// Tells on standard error which argument is wrong: the second, where there is one, is one too many, and an only one is none that the program takes.
fn tell<E: Env + Eprint>(rt: &E) -> ExitCode
    ensures { exit_status result ≡ 2 }
{
    let mut room = [0u8; SHOWN_ROOM];
    let words = Arguments { rt };
    if words.word(2, &mut []).is_some() {
        let word = streams::shown(&words, 2, &mut room);
        let _ = eprintln!(rt; "ranges: '{word}' is one argument too many: see ranges --help");
    } else {
        let word = streams::shown(&words, 1, &mut room);
        let _ = eprintln!(rt; "ranges: '{word}' is no argument that it takes: see ranges --help");
    }
    ExitCode::from(2)
}

fn main(rt: HostRuntime) -> ExitCode {
    match streams::asked_by_words(&Arguments { rt: &rt }) {
        Asked::Nothing => {
            let ended = run(&mut rt.stdin(), &mut rt.stdout());
            end(&rt, "ranges: cannot write the listing", ended)
        }
        Asked::Help => {
            let ended = streams::write_text(&mut rt.stdout(), HELP).map_err(Failure::Write);
            end(&rt, "ranges: cannot write the help", ended)
        }
        Asked::Version => {
            let ended = streams::write_text(&mut rt.stdout(), VERSION).map_err(Failure::Write);
            end(&rt, "ranges: cannot write the version", ended)
        }
        Asked::Other => tell(&rt),
    }
}
