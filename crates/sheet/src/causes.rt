// The causes of a refusal, of this library and of those that evaluate and list schedules (manual, section 6).
ghost use Rattle.std.specs.Prelude.{◌≡◌, Some};
ghost use Rattle.sheet.specs.Results as Spec;

use std::fmt;

// The causes 1 to 12, in the table's order.
#[derive(Clone, Copy, Debug, PartialEq, Eq)]
pub enum Cause {
    SheetTooLong,
    LineBroken,
    CountWrong,
    EndWrong,
    StepWrong,
    SpanPassed,
    ZeroInRange,
    RoomTooShort,
    NoSuchRow,
    NoFormula,
    StepCount,
    NoRoot,
}

impl Cause {
    // The cause's number in the table.
    pub fn number(self) -> u64
        ensures { result ≡ Spec.number self }
    {
        self as u64 + 1
    }
}

// Why a call was refused, and where: the text line, or another place that the table names, or 0. No `Option`: the table has 0 there, and it is printed so.
#[derive(Clone, Copy, Debug, PartialEq, Eq)]
pub struct Refused {
    pub cause: Cause,
    pub place: usize,
}

// Prints the number and the place.
impl fmt::Display for Refused {
    ghost output = { λ r. Some (Spec.refused_text r) };

    fn fmt<W: fmt::Write>(&self, f: &mut fmt::Formatter<W>) -> fmt::Result {
        write!(f, "{} {}", self.cause.number(), self.place)
    }
}

// The refusal for a cause at a place, where a test does not pass.
pub fn ensure(passes: bool, cause: Cause, place: usize) -> Result<(), Refused>
    ensures { result ≡ Spec.ensured passes cause place }
{
    if passes {
        Ok(())
    } else {
        Err(Refused { cause, place })
    }
}
