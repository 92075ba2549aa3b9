// Evaluates one sheet many times, for measuring how long that takes. Standard input has a line with a count N, and then a sheet; the program
// prints N and the range of the last row after N evaluations into the same tables, or the refusal. `checker/bench_evaluate.py` makes the same line.
#![tactic(auto)]

use affine::Range;
use capacity::MAX_ROWS;
use evaluation::table::{RANGE_WIDTH, ROW_WIDTH};
use sheet::{MAX_BYTES, Refused};
use std::{io, str};

const MOST_TURNS: usize = 10000000;

const MOST_DIGITS: usize = 8;
// The count's line, and one byte more than a sheet may have: that a sheet is longer is noticed.
const ROOM: usize = MOST_DIGITS + 1 + MAX_BYTES + 1;

// Tables for as many rows as a sheet may have. In ranges too: `evaluation` has the widths, and takes tables of any length.
const TABLE_NUMBERS: usize = ROW_WIDTH * MAX_ROWS;

const RANGES_NUMBERS: usize = RANGE_WIDTH * MAX_ROWS;

// The range of a sheet's last row after so many evaluations. Not inlined: what is measured is compiled by itself, whatever stands around it in `main`.
#[inline(never)]
fn last_range(sheet: &[u8], turns: usize) -> Result<Range, Refused> {
    let schedule = sheet::read(sheet)?;
    let mut table = [0i64; TABLE_NUMBERS];
    let mut ranges = [0i64; RANGES_NUMBERS];
    // a refused sheet is evaluated as often
    let mut answer = Ok(());
    for _ in 0..turns {
        answer = evaluation::evaluate(schedule, &mut table, &mut ranges);
    }
    answer?;
    let last = evaluation::row_count(schedule);
    evaluation::range(&table, &ranges, last, last)
}

fn print_last(rt: &impl Print, sheet: &[u8], turns: usize) -> io::Result<()> {
    match last_range(sheet, turns) {
        Ok(range) => println!(rt; "{turns} {} {}", range.low, range.high),
        Err(refused) => println!(rt; "refused {refused}"),
    }
}

// The count that so many digits spell, and nothing but digits. Why there is none is not told, so an error is none.
fn count_of(digits: &[u8]) -> Option<usize> {
    if MOST_DIGITS < digits.len() || !digits.iter().all(u8::is_ascii_digit) {
        return None;
    }
    let count = str::from_utf8(digits).ok()?.parse().ok()?;
    (count <= MOST_TURNS).then_some(count)
}

// The count in the first line, and the sheet behind it.
fn count_and_sheet(bytes: &[u8]) -> Option<(usize, &[u8])> {
    let end = bytes.iter().position(|&b| b == b'\n')?;
    let count = count_of(&bytes[..end])?;
    Some((count, &bytes[end + 1..]))
}

fn main(rt: HostRuntime) -> io::Result<()> {
    let mut bytes = [0u8; ROOM];
    let n = streams::read_input(&mut rt.stdin(), &mut bytes)?;
    match count_and_sheet(&bytes[..n]) {
        Some((turns, sheet)) => print_last(&rt, sheet, turns),
        None => println!(rt; "no count"),
    }
}
