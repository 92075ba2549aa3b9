// Schedule sheets (manual, section 2): reading, writing, and the tests 3, 4 and 5 of a schedule that is handed over.
#![tactic(auto)]

ghost use Rattle.std.specs.Prelude.{◌≡◌, ◌↔◌, ◌+◌, ◌<◌, ◌≤◌, ℕ, length, get_or, take, IfOk, IfErr, OnErr};
ghost use Rattle.capacity.specs.Limits.{max_inputs, max_steps};
ghost use Rattle.sheet.specs.Answers.{Refusal};
ghost use Rattle.sheet.specs.Causes.{sheet_too_long};
ghost use Rattle.sheet.specs.Limits.{max_bytes};
ghost use Rattle.sheet.specs.Tests.{ends_pass, step_passes};
ghost use Rattle.sheet.specs.Reading.{read_of};
ghost use Rattle.sheet.specs.Writing.{test_of, Written};
ghost use Rattle.sheet.specs.Lines.{zero_schedule, zero_end, zero_step};
ghost use Rattle.sheet.specs.Results.{number, refusal_of, read_answer, tested, write_answer};
ghost use Rattle.sheet.specs.Same.{trimmed};
ghost use Rattle.sheet.specs.RoundTrip.{SheetOf, WritesBack, ReadsAgain};
ghost use Rattle.sheet.specs.FirstFault.{FirstFault};

pub mod claims; // claims.rt: what is claimed of all schedules, of numbers and of answers
mod causes; // causes.rt: why a call is refused
mod number; // number.rt: a number field, read and written
mod fields; // fields.rt: a line of fields, read and written
mod lines; // lines.rt: what each line of a sheet holds
mod tests; // tests.rt: the tests 3, 4 and 5 of a line's numbers, and of a schedule
mod reader; // reader.rt: a sheet read, line by line
mod writer; // writer.rt: a schedule written, line by line

// Why a call is refused, a test with its refusal, and what a count is as a natural number, for the callers of `test`.
pub use causes::{Cause, Refused, ensure};
pub use lines::natural;

// Bytes, a count and a line of numbers written at a position, for libraries that write lines of their own; a number field, read.
pub use fields::{put_bytes, put_fields};
pub use number::{Found, byte, digit, field_at, put_count};

// The limits of a sheet (manual, section 2.4): of its counts, from `capacity`, and the others; the `Limits.antt` of both crates have the same names for definitions and laws.
pub use capacity::{MAX_INPUTS, MAX_STEPS};

pub const MAX_BYTES: usize = 1024;

pub const END_LIMIT: i64 = 268435456;

const LAST_BINARY: i64 = 4;

const LAST_CODE: i64 = 6;

// The ends of an input.
#[derive(Clone, Copy, Debug, PartialEq, Eq)]
pub struct End {
    pub low: i64,
    pub high: i64,
}

impl End {
    pub const ZERO: End = End { low: 0, high: 0 };
}

// A step: its code, the rows that it names, and a constant. The code is a number and no enum: any schedule may be handed over, and is tested.
#[derive(Clone, Copy, Debug, PartialEq, Eq)]
pub struct Step {
    pub code: i64,
    pub first: i64,
    pub second: i64,
    pub value: i64,
}

impl Step {
    pub const ZERO: Step = Step {
        code: 0,
        first: 0,
        second: 0,
        value: 0,
    };
}

// A schedule: its counts, and with room for all that the limits allow the ends of its inputs and its steps. Counts beside arrays, and no Vec: in fixed
// memory, and any counts may be handed over. No `==`: field by field it would tell schedules apart by what lies beyond their counts.
#[derive(Clone, Copy, Debug)]
pub struct Schedule {
    pub inputs: i64,
    pub squares: i64,
    pub steps: i64,
    pub ends: [End; MAX_INPUTS],
    pub step: [Step; MAX_STEPS],
}

// What a text line is: a line of names, or one of counts, of an input's ends, of a step (its index, and how many rows are earlier).
#[derive(Clone, Copy)]
enum Line {
    CountNames,
    CountLine,
    EndNames,
    EndLine(usize),
    StepNames,
    StepLine(usize, usize),
}

// Reads a sheet: any bytes, of any length. A refusal by 1 tells the whole sheet, one by 2 to 5 its first faulty text line.
#[tactic(auto, unfolding(crate::specs::Reading::read_of), using(crate::proofs::CallClaims::has_its_bytes, crate::proofs::CallClaims::is_written_back, crate::proofs::CallClaims::reads_each, crate::proofs::CallClaims::too_long, crate::proofs::CallClaims::tells_first, crate::proofs::CallClaims::only_first))]
pub fn read(bytes: &[u8]) -> Result<Schedule, Refused>
    ensures answer { read_answer result ≡ read_of bytes.now }

    // what is read has these bytes, and is written back to them; the sheet of each schedule that passes is read as that schedule, zeros beyond its counts
    ensures has_its_bytes { IfOk result (λ c. SheetOf bytes.now c) }
    ensures writes_back { IfOk result (λ c. WritesBack bytes.now c) }
    ensures reads_each { (c : Schedule) → SheetOf bytes.now c → result ≡ Ok (trimmed c) }

    // a refusal tells its cause and place, and no sheet has another
    ensures too_long { ((read_answer result).refusal ≡ sheet_too_long) ↔ (max_bytes < length bytes.now) }
    ensures tells_first_fault { IfErr result (λ r. 2 ≤ number r.cause → FirstFault bytes.now (refusal_of r)) }
    ensures tells_no_other_fault { (r : Refusal) → length bytes.now ≤ max_bytes → FirstFault bytes.now r → (read_answer result).refusal ≡ r }
{
    ensure(bytes.len() <= MAX_BYTES, Cause::SheetTooLong, 0)?;
    reader::read_sheet(bytes)
}

// Tests a schedule by 3, 4 and 5 as its lines would stand. Kept apart: put into an evaluation it takes 200 instructions more there.
#[inline(never)]
pub fn test(schedule: Schedule) -> Result<(), Refused>
    ensures { tested result ≡ test_of schedule }
{
    ensure(schedule.counts_pass(), Cause::CountWrong, 2)?;
    // block by block: over text lines, each asked for its kind as the reader asks, the test takes nearly twice as long
    let inputs = schedule.input_count();
    let steps = schedule.step_count();
    let ends = &schedule.ends;
    let step = &schedule.step;
    tests::test_block(
        4,
        inputs,
        Cause::EndWrong,
        |i|
            requires { i < max_inputs }
            ensures { let e = get_or ends.entry.now i zero_end in result ≡ ends_pass e.low e.high }
        { ends[i].passes() },
    )?;
    tests::test_block(
        5 + inputs,
        steps,
        Cause::StepWrong,
        |i|
            requires { (i < max_steps) × (inputs ≤ max_inputs) }
            ensures { let t = get_or step.entry.now i zero_step in result ≡ step_passes (inputs + i) t.code t.first t.second t.value }
        { step[i].passes(inputs + i) },
    )
}

// Writes the sheet of a schedule into the lent bytes, where it passes and there is room, and answers the sheet's length. A refusal writes nothing.
pub fn write(schedule: Schedule, out: &mut [u8]) -> Result<usize, Refused>
    ensures written { Written schedule out.old out.new (write_answer result) }
    ensures reads_again { IfOk result (λ n. ReadsAgain schedule (take n out.new)) }
    ensures leaves_all { OnErr result (out.new ≡ out.old) }
{
    test(schedule)?;
    let mut sheet = [0u8; MAX_BYTES];
    let n = writer::put_lines(&mut sheet, &schedule, schedule.lines_left() + 2);
    ensure(n <= out.len(), Cause::RoomTooShort, 0)?;
    fields::put_bytes(out, 0, &sheet[..n]);
    Ok(n)
}

// A schedule of zeros.
#[tactic(auto, unfolding(crate::specs::Lines::zero_schedule))]
pub fn zero_schedule() -> Schedule
    ensures { result ≡ zero_schedule }
{
    Schedule {
        inputs: 0,
        squares: 0,
        steps: 0,
        ends: [End::ZERO; MAX_INPUTS],
        step: [Step::ZERO; MAX_STEPS],
    }
}
