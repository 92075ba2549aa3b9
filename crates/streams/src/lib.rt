// Input and output for thin programs: a buffer filled from a reader, bytes written to a writer, how a program ends, and what the words of its call ask. A
// call that a signal interrupts is made again: that is tested, and proved is that no failure that is told is an interruption.
//
// Proved: every function is safe and ends, an answer `Ok(n)` of `read_input` counts bytes at the start of the buffer, behind the bytes that were read are
// zeros, and where there are no bytes to write the answer is `Ok`. Where a reader or a writer says which bytes it has left or holds, each byte comes once
// and in order, and what came out is a beginning of the bytes. Of the system's own streams no contract says that, nor of its arguments what they are: there
// it is tested (tests/failing_calls.sh). After a failure no other call is made, and the answer has the reason.
#![tactic(auto)]

ghost use Rattle.std.specs.Prelude.{◌≡◌, ◌≢◌, ◌<◌, ◌≤◌, eqb, length, take, IsOk, OnOk, OnErr, IfOk, IfErr};
ghost use Rattle.std.specs.Process.{exit_status};
ghost use Rattle.std.specs.IoError.{error_kind};
ghost use Rattle.std.specs.List.{before_first};
ghost use Rattle.std.specs.Io.{ReadsAtMost, WritesAtMost};
ghost use Rattle.std.specs.Io.KnownBytes.{Appends, Consumes, IsAtEnd, ReadConsumes, WriteAppends};
ghost use Rattle.streams.specs.Count.{CountsIn, ZerosFrom, ConsumesFront, AppendsBeginning};

mod call; // call.rt: what the words of a call ask
mod words; // words.rt: the words of a call

pub use call::{Asked, asked_by_words};
use std::io::{Error, ErrorKind, Read, Write};
use std::process::ExitCode;
use std::{io, str};
pub use words::{Arguments, SHOWN_ROOM, Words, shown};

// How often a call is made again: no run gets there, and every loop ends.
const RETRIES: u64 = u64::MAX;

// More bytes than an error's text has.
const REASON_ROOM: usize = 512;

/// Why a program did not do its work: a read or a write failed, each with its reason.
#[derive(Debug, Drop)]
pub enum Failure {
    Read(Error),
    Write(Error),
}

// Reads until buf is full or the input ends, and puts zeros behind the bytes that were read, also where a read fails: a reader may have written anything
// there. On an empty buf it makes no call.
pub fn read_input<R: Read>(reader: &mut R, buf: &mut [u8]) -> io::Result<usize>
    ensures counts_in { CountsIn result buf.new }
    ensures buf_len_unchanged { length buf.new ≡ length buf.old }
    ensures in_order { ConsumesFront (R.remaining reader.old) (R.remaining reader.new) result buf.new }
    ensures zeros_behind { IfOk result (ZerosFrom buf.new) }
    ensures retried { IfErr result (λ e. error_kind e ≢ ErrorKind.Interrupted) }
{
    let (done, ended) = read_on(reader, buf);
    buf[done..].fill(0);
    ended.map(|()| done)
}

// Reads until buf is full, the input ends or a read fails: how many bytes were read, and how it ended.
fn read_on<R: Read>(reader: &mut R, buf: &mut [u8]) -> (usize, io::Result<()>)
    ensures within { result.0 ≤ length buf.new }
    ensures buf_len_unchanged { length buf.new ≡ length buf.old }
    ensures in_order { Consumes (R.remaining reader.old) (R.remaining reader.new) (take result.0 buf.new) }
    ensures at_end { OnOk result.1 (result.0 < length buf.new → IsAtEnd (R.remaining reader.new)) }
    ensures retried { IfErr result.1 (λ e. error_kind e ≢ ErrorKind.Interrupted) }
{
    // a position: each read moves it by as much as it gave
    let mut done: usize = 0;
    while done < buf.len() {
        match read_some(reader, &mut buf[done..]) {
            Ok(0) => return (done, Ok(())),
            Ok(more) => done += more,
            Err(e) => return (done, Err(e)),
        }
    }
    (done, Ok(()))
}

// Writes all of the bytes, or stops at the first write that fails or takes nothing. On no bytes it makes no call and answers `Ok`; of any others the
// answer is the writer's.
pub fn write_all<W: Write>(writer: &mut W, bytes: &[u8]) -> io::Result<()>
    ensures no_bytes { length bytes.now ≡ 0 → IsOk result }
    ensures whole { OnOk result (Appends (W.contents writer.old) (W.contents writer.new) bytes.now) }
    ensures beginning { OnErr result (AppendsBeginning (W.contents writer.old) (W.contents writer.new) bytes.now) }
    ensures retried { IfErr result (λ e. error_kind e ≢ ErrorKind.Interrupted) }
{
    // a position: each write moves it by as much as it took
    let mut done: usize = 0;
    while done < bytes.len() {
        let put = write_some(writer, &bytes[done..])?;
        if put == 0 {
            return Err(Error::from(ErrorKind::WriteZero));
        }
        done += put;
    }
    Ok(())
}

// Writes a text that a program has ready.
pub fn write_text<W: Write>(writer: &mut W, text: &str) -> io::Result<()>
    ensures whole { OnOk result (Appends (W.contents writer.old) (W.contents writer.new) text.now) }
    ensures beginning { OnErr result (AppendsBeginning (W.contents writer.old) (W.contents writer.new) text.now) }
    ensures retried { IfErr result (λ e. error_kind e ≢ ErrorKind.Interrupted) }
{
    write_all(writer, text.as_bytes())
}

// Writes one line to standard error: what failed, as the caller names it, a colon and the first line of the reason, or what failed alone where the room
// cuts the reason within a character. Where that cannot be written nothing can be told. Answers the status that a program ends with then.
pub fn fail<P: Eprint>(rt: &P, what: &str, error: Error) -> ExitCode
    ensures { exit_status result ≡ 1 }
{
    let mut room = [0u8; REASON_ROOM];
    if let Ok(text) = str::from_utf8(text_of(error, &mut room)) {
        let reason = first_line(without_number(text));
        let _ = eprintln!(rt; "{what}: {reason}");
    } else {
        let _ = eprintln!(rt; "{what}");
    }
    ExitCode::FAILURE
}

// Writes a line to standard error for a program that was not called as it is to be. Answers the status that it ends with then.
pub fn wrong_call<P: Eprint>(rt: &P, what: &str) -> ExitCode
    ensures { exit_status result ≡ 2 }
{
    let _ = eprintln!(rt; "{what}");
    ExitCode::from(2)
}

// The error's text, in the first of the lent bytes, as far as there is room.
fn text_of<'a>(error: Error, room: &'a mut [u8]) -> &'a [u8] {
    let all = room.len();
    let mut rest: &mut [u8] = &mut *room;
    let _ = write!(rest, "{error}");
    let length = all.saturating_sub(rest.len());
    &room[..length]
}

// A system error's text ends in its number, ` (os error 5)`.
fn without_number(text: &str) -> &str {
    text.split_once(" (os error ")
        .map_or(text, |(reason, _)| reason)
}

// A text as far as its first byte 10, whole where there is none: a program that failed tells one line.
fn first_line(text: &str) -> &str
    ensures { result.now ≡ before_first (λ b. eqb b 10) text.now }
{
    match text.split_once('\n') {
        Some((line, _)) => line,
        None => text,
    }
}

// A read, made again while a signal interrupts it.
fn read_some<R: Read>(reader: &mut R, buf: &mut [u8]) -> io::Result<usize>
    ensures bound { ReadsAtMost result buf.new }
    ensures buf_len_unchanged { length buf.new ≡ length buf.old }
    ensures bytes { ReadConsumes (R.remaining reader.old) (R.remaining reader.new) result buf.new }
    ensures retried { IfErr result (λ e. error_kind e ≢ ErrorKind.Interrupted) }
{
    for _ in 0..RETRIES {
        match reader.read(buf) {
            Err(e) if e.kind() == ErrorKind::Interrupted => {}
            answer => return answer,
        }
    }
    Err(Error::from(ErrorKind::TimedOut))
}

// A write, made again while a signal interrupts it: not one function with `read_some`, since a closure that reads or writes tells nothing of the bytes.
fn write_some<W: Write>(writer: &mut W, bytes: &[u8]) -> io::Result<usize>
    ensures bound { WritesAtMost result bytes.now }
    ensures bytes { WriteAppends (W.contents writer.old) (W.contents writer.new) result bytes.now }
    ensures retried { IfErr result (λ e. error_kind e ≢ ErrorKind.Interrupted) }
{
    for _ in 0..RETRIES {
        match writer.write(bytes) {
            Err(e) if e.kind() == ErrorKind::Interrupted => {}
            answer => return answer,
        }
    }
    Err(Error::from(ErrorKind::TimedOut))
}
