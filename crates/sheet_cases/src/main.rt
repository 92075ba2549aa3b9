// Reads the sheets in its data file and prints for each its refusal and place, or the sheet written again.
//
// The file `sheets` has the cases one after another, each as a decimal byte length, byte 10, then that many bytes. The program prints for
// each either the line `refused NUMBER PLACE`, or the line `accepted LENGTH` and the bytes of the written sheet. The checker makes both files.
#![tactic(auto)]

use sheet::{MAX_BYTES, Refused};
use std::fs::File;
use std::io;
use std::io::Read;

// More than any case has.
const ROOM: usize = 4096;

// The most digits of a length, and the byte behind them.
const LENGTH_ROOM: usize = 8;

// The next byte of the file; a read that fails ends it.
fn next_byte(file: &mut impl Read) -> Option<u8> {
    let mut one = [0u8; 1];
    match streams::read_input(file, &mut one) {
        Ok(1) => Some(one[0]),
        _ => None,
    }
}

// The length in front of a case: a byte below `0` ends it, and any other counts for what it is above `0`.
fn next_length(file: &mut impl Read) -> Option<usize> {
    let mut n: usize = 0;
    // byte by byte: only its end tells how long a length is, and the bytes behind it are the case's
    for _ in 0..LENGTH_ROOM {
        let b = next_byte(file)?;
        if b < b'0' {
            return Some(n);
        }
        if n < ROOM {
            n = n * 10 + usize::from(b - b'0');
        }
    }
    Some(n)
}

// The next case, in the first of the lent bytes, where the file has it whole.
fn next_case<'a>(file: &mut impl Read, room: &'a mut [u8]) -> Option<&'a [u8]> {
    let n = next_length(file)?;
    let case = room.get_mut(..n)?;
    match streams::read_input(file, case) {
        Ok(filled) if filled == n => Some(case),
        _ => None,
    }
}

// The schedule of a sheet, written again into the first of the lent bytes.
fn written<'a>(bytes: &[u8], room: &'a mut [u8]) -> Result<&'a [u8], Refused> {
    let schedule = sheet::read(bytes)?;
    let n = sheet::write(schedule, &mut *room)?;
    Ok(&room[..n])
}

// What is printed for a case.
fn print_case(rt: &impl Print, bytes: &[u8]) -> io::Result<()> {
    let mut room = [0u8; MAX_BYTES];
    match written(bytes, &mut room) {
        Err(refused) => println!(rt; "refused {refused}"),
        Ok(sheet) => {
            println!(rt; "accepted {}", sheet.len())?;
            rt.write_all(sheet)
        }
    }
}

fn print_cases(rt: &impl Print, file: &mut impl Read) -> io::Result<()> {
    // A proved loop ends, and nothing says that a file does: no run uses these turns up.
    for _ in 0..u64::MAX {
        let mut room = [0u8; ROOM];
        let Some(case) = next_case(file, &mut room) else {
            break;
        };
        print_case(rt, case)?;
    }
    Ok(())
}

// `main` of library_calls is alike, in another program: what both do is the library's `open`, and `fail` of streams.
fn main(rt: HostRuntime) -> io::Result<()> {
    match File::open(&rt, "sheets") {
        Ok(mut file) => print_cases(&rt, &mut file),
        Err(e) => {
            streams::fail(&rt, "sheets", e);
            Ok(())
        }
    }
}
