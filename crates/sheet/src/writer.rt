// A schedule written, line by line.
ghost use Rattle.std.specs.Prelude.{◌+◌, ◌≤◌, ◌<◌, ◌^◌, length};
ghost use Rattle.sheet.specs.Lines.{numbers, line_text};
ghost use Rattle.sheet.specs.Writing.{lines_text};
ghost use Rattle.sheet.specs.Wrote.{Wrote};

use crate::{Line, Schedule, fields};

// Writes a line of the schedule's sheet. A position beside the bytes: `Wrote` says of all the lent bytes what they hold.
#[tactic(auto, using(crate::proofs::LineKinds::text_of_names, crate::proofs::LineKinds::text_of_numbers))]
fn put_line(out: &mut [u8], at: usize, c: &Schedule, l: Line) -> usize
    requires { at + length (line_text l (numbers c.now l)) ≤ length out.old }
    ensures { Wrote out.old out.new at result (line_text l (numbers c.now l)) }
{
    match l.names() {
        Some(names) => fields::put_bytes(out, at, names),
        None => fields::put_fields(out, at, &c.numbers(l)[..l.width()]),
    }
}

// Writes the first lines of the schedule's sheet, so many, from the start of the bytes on.
pub(crate) fn put_lines(out: &mut [u8], c: &Schedule, count: usize) -> usize
    requires { (length (lines_text count 1 c.now) ≤ length out.old) × (count < 2 ^ 63) }
    ensures { Wrote out.old out.new 0 result (lines_text count 1 c.now) }
{
    let mut p = 0;
    // not `1..=count`: with it the proof has two ends more to answer
    for n in 1..count + 1 {
        p = put_line(out, p, c, c.line_at(n));
    }
    p
}
