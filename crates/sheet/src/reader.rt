// A sheet, read line by line into a schedule. The bytes stand with a position, and not as what is left of them: specs/Reading.antt says by positions what reading means.
ghost use Rattle.std.specs.Prelude.{◌≡◌, ◌+◌, ◌≤◌, ◌<◌, ◌^◌, length};
ghost use Rattle.sheet.specs.Reading.{read_line, read_lines, read_sheet, answer};
ghost use Rattle.sheet.specs.Results.{part, read_answer};

use crate::{Cause, Refused, Schedule, ensure, fields, tests};

// Text line n, from 1, at a position: a line of names stands there byte for byte, one of numbers has its layout first, then its meaning, then its place.
// Answers where the next line starts.
fn read_line(s: &[u8], at: usize, n: usize, c: &mut Schedule) -> Result<usize, Refused>
    requires { at ≤ length s.now }
    ensures { part c.new result ≡ read_line n c.old s.now at }
{
    let l = c.line_at(n);
    if let Some(names) = l.names() {
        ensure(s[at..].starts_with(names), Cause::LineBroken, n)?;
        return Ok(at + names.len());
    }
    let f = fields::fields_at(s, at, l.width()).ok_or(Refused {
        cause: Cause::LineBroken,
        place: n,
    })?;
    tests::test_line(l, f.value, n)?;
    c.store(l, f.value);
    Ok(f.next)
}

// So many text lines from line `first` on. A line and a count, as the definition has them: over a range the clause would speak of a difference.
fn read_lines(
    s: &[u8],
    at: usize,
    first: usize,
    count: usize,
    c: &mut Schedule,
) -> Result<usize, Refused>
    requires { (at ≤ length s.now) × (first + count < 2 ^ 63) }
    ensures { part c.new result ≡ read_lines count first c.old s.now at }
{
    let mut next = at;
    for n in first..first + count {
        next = read_line(s, next, n, c)?;
    }
    Ok(next)
}

// The whole sheet, and nothing behind it.
pub(crate) fn read_sheet(s: &[u8]) -> Result<Schedule, Refused>
    ensures { read_answer result ≡ answer (read_sheet s.now) }
{
    let mut c = crate::zero_schedule();
    let at = read_lines(s, 0, 1, 2, &mut c)?;
    let left = c.lines_left();
    let end = read_lines(s, at, 3, left, &mut c)?;
    ensure(end == s.len(), Cause::LineBroken, left + 3)?;
    Ok(c)
}
