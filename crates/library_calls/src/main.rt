// Makes the library calls that its data file lists, on hostile arguments too, and prints what each answers and leaves.
//
// The file `calls` has fields of 17 bytes: 16 hexadecimal digits, and a byte that means nothing. A call is a code and its arguments, each one
// field; a sheet that is to be listed, and a formula that is to be read, stands behind its call, byte for byte. `checker/library_calls.py` says what
// each code is and what it prints; it makes the file and the same lines.
#![tactic(auto)]

ghost use Rattle.std.specs.Prelude.{◌≤◌};

use capacity::{MAX_INPUTS, MAX_ROWS, MAX_STEPS};
use evaluation::table::{RANGE_WIDTH, ROW_WIDTH};
use formulas::InputBlock;
use sheet::{End, MAX_BYTES, Refused, Schedule, Step};
use std::fs::File;
use std::io::Read;
use std::process::ExitCode;
use std::{array, io};

// One row more than a sheet may have.
const ROWS: usize = MAX_ROWS + 1;

// The most numbers and bytes that are lent.
const TABLE_ROOM: usize = ROW_WIDTH * ROWS;

const RANGES_ROOM: usize = RANGE_WIDTH * ROWS;

const WRITE_ROOM: usize = MAX_BYTES;

const LIST_ROOM: usize = 4200;
// The most bytes of a sheet that is listed, and of a formula that is read.
const SHEET_ROOM: usize = 1100;

const FORMULA_ROOM: usize = 700;

// What stands in lent bytes before a call.
const UNTOUCHED: u8 = b'?';

const FIELD: usize = 17;

const DIGITS: usize = 16;
// What stands behind the last call in place of a code.
const END_CODE: u64 = 0;

// What the file asks for.
#[derive(Clone, Copy)]
enum Call {
    LendTable,
    PutNumber,
    TakeSchedule,
    Evaluate,
    Range,
    Row,
    Same,
    Write,
    List,
    TakeInputs,
    Formula,
    LendRanges,
    PutRangeNumber,
}

// A code that is no call's.
#[derive(Clone, Copy, Debug)]
struct NoCall;

// A match: the codes are the file's, and the library makes no enum of a number.
impl TryFrom<u64> for Call {
    type Error = NoCall;

    fn try_from(code: u64) -> Result<Call, NoCall> {
        match code {
            1 => Ok(Call::LendTable),
            2 => Ok(Call::PutNumber),
            3 => Ok(Call::TakeSchedule),
            4 => Ok(Call::Evaluate),
            5 => Ok(Call::Range),
            6 => Ok(Call::Row),
            7 => Ok(Call::Same),
            8 => Ok(Call::Write),
            9 => Ok(Call::List),
            10 => Ok(Call::TakeInputs),
            11 => Ok(Call::Formula),
            12 => Ok(Call::LendRanges),
            13 => Ok(Call::PutRangeNumber),
            _ => Err(NoCall),
        }
    }
}

// ---- the data file

// Fills the bytes from the file, as far as it goes: a read that fails ends it.
fn read_full(file: &mut impl Read, bytes: &mut [u8]) {
    let _ = streams::read_input(file, bytes);
}

// A hexadecimal digit; 0 of every byte but 0 to 9 and a to f, of the upper case too.
fn digit(b: u8) -> u64 {
    if b.is_ascii_uppercase() {
        0
    } else {
        u64::from(char::from(b).to_digit(16).unwrap_or(0))
    }
}

// The next field, as an unsigned number; 0 where the file has ended, so that the calls end there too.
fn next(file: &mut impl Read) -> u64 {
    let mut field = [0u8; FIELD];
    read_full(file, &mut field);
    field[..DIGITS]
        .iter()
        .fold(0, |value, &b| (value << 4) | digit(b))
}

// The next field, as a signed number.
fn next_signed(file: &mut impl Read) -> i64 {
    next(file).cast_signed()
}

fn next_size(file: &mut impl Read) -> usize {
    next(file) as usize
}

// The next call, or what is none's code; nothing at the end.
fn next_call(file: &mut impl Read) -> Option<Result<Call, NoCall>> {
    match next(file) {
        END_CODE => None,
        code => Some(Call::try_from(code)),
    }
}

// The first bytes of the room, as many as the next field says, or all of it.
fn next_lent<'a>(file: &mut impl Read, room: &'a mut [u8]) -> &'a mut [u8] {
    let length = next_size(file).min(room.len());
    &mut room[..length]
}

// Fills the lent bytes with the next ones, and passes over the byte behind them.
fn next_bytes(file: &mut impl Read, bytes: &mut [u8]) {
    read_full(file, bytes);
    let mut behind = [0u8; 1];
    read_full(file, &mut behind);
}

fn next_end(file: &mut impl Read) -> End {
    let low = next_signed(file);
    let high = next_signed(file);
    End { low, high }
}

// As many ends as the next field says, or all of them; the others are zeros.
fn next_ends(file: &mut impl Read) -> [End; MAX_INPUTS] {
    let given = next_size(file);
    array::from_fn(|i| if i < given { next_end(file) } else { End::ZERO })
}

// The fields of a step, in the order of a sheet's line.
fn next_step(file: &mut impl Read) -> Step {
    Step::from(array::from_fn(|_| next_signed(file)))
}

// As many steps as the next field says, or all of them; the others are zeros.
fn next_steps(file: &mut impl Read) -> [Step; MAX_STEPS] {
    let given = next_size(file);
    array::from_fn(|j| if j < given {
        next_step(file)
    } else {
        Step::ZERO
    })
}

fn next_schedule(file: &mut impl Read) -> Schedule {
    let inputs = next_signed(file);
    let squares = next_signed(file);
    let steps = next_signed(file);
    let ends = next_ends(file);
    let step = next_steps(file);
    Schedule {
        inputs,
        squares,
        steps,
        ends,
        step,
    }
}

// The schedule with other inputs, squares and ends.
fn next_inputs(file: &mut impl Read, schedule: Schedule) -> Schedule {
    let inputs = next_signed(file);
    let squares = next_signed(file);
    let ends = next_ends(file);
    Schedule {
        inputs,
        squares,
        ends,
        ..schedule
    }
}

// ---- printing

// The number and the place of a refusal, or two zeros.
fn print_refusal<T: Copy>(rt: &impl Print, answer: Result<T, Refused>) -> io::Result<()> {
    match answer {
        Ok(_) => print!(rt; " 0 0"),
        Err(refused) => print!(rt; " {refused}"),
    }
}

// The numbers, so many equal ones that follow each other as one.
fn print_numbers(rt: &impl Print, numbers: &[i64]) -> io::Result<()> {
    for equal in numbers.chunk_by(|a, b| a == b) {
        if let [first, ..] = equal {
            print!(rt; " {first}")?;
        }
        if equal.len() > 1 {
            print!(rt; "x{}", equal.len())?;
        }
    }
    println!(rt; "")
}

// The bytes before the untouched ones that end them, and how many these are.
fn print_bytes(rt: &impl Print, bytes: &[u8]) -> io::Result<()> {
    let touched = match bytes.iter().rposition(|&b| b != UNTOUCHED) {
        Some(last) => &bytes[..=last],
        None => &bytes[..0],
    };
    rt.write_all(touched)?;
    println!(rt; "\nleft {}", bytes.len() - touched.len())
}

// The answer of a call that writes, and the bytes lent to it.
fn print_written(rt: &impl Print, answer: Result<usize, Refused>, bytes: &[u8]) -> io::Result<()> {
    print_refusal(rt, answer)?;
    println!(rt; " {}", answer.unwrap_or(0))?;
    print_bytes(rt, bytes)
}

// A part of a schedule, its kind, its place and its numbers, where these are not all zeros.
fn print_part(rt: &impl Print, kind: &str, place: usize, numbers: &[i64]) -> io::Result<()> {
    if numbers.iter().all(|&value| value == 0) {
        return Ok(());
    }
    print!(rt; " {kind} {place}")?;
    for value in numbers {
        print!(rt; " {value}")?;
    }
    Ok(())
}

// A schedule: its counts, and every end and step that is not all zeros, beyond the counts too.
fn print_schedule(rt: &impl Print, schedule: Schedule) -> io::Result<()> {
    print!(rt;
        " {} {} {}",
        schedule.inputs, schedule.squares, schedule.steps
    )?;
    (1..=MAX_INPUTS)
        .zip(&schedule.ends)
        .try_for_each(|(i, end)| print_part(rt, "end", i, &[end.low, end.high]))?;
    (1..=MAX_STEPS).zip(&schedule.step).try_for_each(|(j, step)| {
        print_part(
            rt,
            "step",
            j,
            &[step.code, step.first, step.second, step.value],
        )
    })?;
    println!(rt; "")
}

// ---- the tables

// A table, and how many numbers from its start on are lent. An array with a count, and no Vec: in fixed memory.
#[derive(Clone, Copy)]
struct Table<const N: usize> {
    numbers: [i64; N],
    lent: usize,
    ghost lent_within: { lent ≤ N },
}

impl<const N: usize> Table<N> {
    fn new() -> Table<N> {
        Table {
            numbers: [0; N],
            lent: 0,
        }
    }

    // Lends so many numbers from now on, each of them the same.
    fn lend(&mut self, file: &mut impl Read) {
        let lent = next_size(file).min(N);
        let value = next_signed(file);
        self.numbers[..lent].fill(value);
        self.lent = lent;
    }

    // Puts one number, where it is lent.
    fn put(&mut self, file: &mut impl Read) {
        let place = next_size(file);
        let value = next_signed(file);
        if let Some(number) = self.front_mut().get_mut(place) {
            *number = value;
        }
    }

    fn front(&self) -> &[i64] {
        &self.numbers[..self.lent]
    }

    fn front_mut(&mut self) -> &mut [i64] {
        let lent = self.lent;
        let numbers = &mut self.numbers;
        &mut numbers[..lent]
    }
}

// ---- the calls

// What is kept between calls, with the file that they are read from and where their lines go.
#[derive(Drop)]
struct Calls<'a, P> {
    rt: &'a P,
    file: File,
    table: Table<TABLE_ROOM>,
    ranges: Table<RANGES_ROOM>,
    schedule: Schedule,
}

impl<'a, P: Print> Calls<'a, P> {
    fn new(rt: &'a P, file: File) -> Calls<'a, P> {
        Calls {
            rt,
            file,
            table: Table::new(),
            ranges: Table::new(),
            schedule: sheet::zero_schedule(),
        }
    }

    fn print_tables(&self) -> io::Result<()> {
        print!(self.rt; "table")?;
        print_numbers(self.rt, self.table.front())?;
        print!(self.rt; "ranges")?;
        print_numbers(self.rt, self.ranges.front())
    }

    fn evaluate(&mut self) -> io::Result<()> {
        let answer = evaluation::evaluate(
            self.schedule,
            self.table.front_mut(),
            self.ranges.front_mut(),
        );
        print!(self.rt; "evaluate")?;
        print_refusal(self.rt, answer)?;
        println!(self.rt; "")?;
        self.print_tables()
    }

    fn range(&mut self) -> io::Result<()> {
        let count = next_size(&mut self.file);
        let row = next_size(&mut self.file);
        let answer = evaluation::range(self.table.front(), self.ranges.front(), count, row);
        let (low, high) = answer.map_or((0, 0), |range| (range.low, range.high));
        print!(self.rt; "range")?;
        print_refusal(self.rt, answer)?;
        println!(self.rt; " {low} {high}")
    }

    fn row(&mut self) -> io::Result<()> {
        let count = next_size(&mut self.file);
        let row = next_size(&mut self.file);
        print!(self.rt; "row")?;
        print_numbers(self.rt, evaluation::row(self.table.front(), count, row))
    }

    fn same(&mut self) -> io::Result<()> {
        let count = next_size(&mut self.file);
        let first = next_size(&mut self.file);
        let second = next_size(&mut self.file);
        let answer = evaluation::same(self.table.front(), count, first, second);
        print!(self.rt; "same")?;
        print_refusal(self.rt, answer)?;
        println!(self.rt; " {}", u8::from(answer.unwrap_or(false)))
    }

    fn write(&mut self) -> io::Result<()> {
        let mut room = [UNTOUCHED; WRITE_ROOM];
        let out = next_lent(&mut self.file, &mut room);
        let answer = sheet::write(self.schedule, &mut *out);
        print!(self.rt; "write")?;
        print_written(self.rt, answer, out)
    }

    fn list(&mut self) -> io::Result<()> {
        let mut sheet_room = [0u8; SHEET_ROOM];
        let mut text_room = [UNTOUCHED; LIST_ROOM];
        let sheet = next_lent(&mut self.file, &mut sheet_room);
        let text = next_lent(&mut self.file, &mut text_room);
        next_bytes(&mut self.file, &mut *sheet);
        let answer = listing::list(
            sheet,
            self.table.front_mut(),
            self.ranges.front_mut(),
            &mut *text,
        );
        print!(self.rt; "list")?;
        print_written(self.rt, answer, text)?;
        self.print_tables()
    }

    fn formula(&mut self) -> io::Result<()> {
        let mut room = [0u8; FORMULA_ROOM];
        let text = next_lent(&mut self.file, &mut room);
        next_bytes(&mut self.file, &mut *text);
        let block = InputBlock {
            inputs: self.schedule.inputs,
            squares: self.schedule.squares,
            ends: self.schedule.ends,
        };
        let answer = formulas::read(block, text);
        print!(self.rt; "formula")?;
        print_refusal(self.rt, answer)?;
        print_schedule(self.rt, answer.unwrap_or(sheet::zero_schedule()))
    }

    // Makes one call.
    fn make(&mut self, call: Call) -> io::Result<()> {
        match call {
            Call::LendTable => self.table.lend(&mut self.file),
            Call::PutNumber => self.table.put(&mut self.file),
            Call::TakeSchedule => self.schedule = next_schedule(&mut self.file),
            Call::Evaluate => self.evaluate()?,
            Call::Range => self.range()?,
            Call::Row => self.row()?,
            Call::Same => self.same()?,
            Call::Write => self.write()?,
            Call::List => self.list()?,
            Call::TakeInputs => self.schedule = next_inputs(&mut self.file, self.schedule),
            Call::Formula => self.formula()?,
            Call::LendRanges => self.ranges.lend(&mut self.file),
            Call::PutRangeNumber => self.ranges.put(&mut self.file),
        }
        Ok(())
    }

    // Makes the calls up to the end. A code that is no call's is passed over.
    fn make_all(&mut self) -> io::Result<()> {
        // A proved loop ends, and nothing says that a file does: no run uses these turns up.
        for _ in 0..u64::MAX {
            let Some(call) = next_call(&mut self.file) else {
                break;
            };
            if let Ok(call) = call {
                self.make(call)?;
            }
        }
        Ok(())
    }
}

// `main` of sheet_cases is alike, in another program: what both do is the library's `open`, and `fail` of streams.
fn main(rt: HostRuntime) -> io::Result<ExitCode> {
    match File::open(&rt, "calls") {
        Ok(file) => {
            Calls::new(&rt, file).make_all()?;
            Ok(ExitCode::SUCCESS)
        }
        Err(e) => Ok(streams::fail(&rt, "calls", e)),
    }
}
