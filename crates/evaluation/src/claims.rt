// What is claimed of the definitions that contracts cite. Each function has no code: its contract is the claim.
ghost use Rattle.std.specs.Prelude.{◌≡◌};
ghost use Rattle.evaluation.specs.Table.{row_width, range_width};
ghost use Rattle.evaluation.specs.Answers.{RangeAnswersTell, SameAnswersTell};
ghost use Rattle.evaluation.specs.Roots.{CandidatesStartFromZero, MissesEveryNumber};
ghost use Rattle.evaluation.specs.Examples.{ExamplesHold};

use crate::table::{RANGE_WIDTH, ROW_WIDTH};

// The widths by which a caller measures the tables that it lends are those of the definitions.
pub fn widths()
    ensures row { ROW_WIDTH ≡ row_width }
    ensures range { RANGE_WIDTH ≡ range_width }
{}

pub fn roots()
    ensures start { CandidatesStartFromZero }
    ensures misses { MissesEveryNumber }
{}

pub fn examples()
    ensures { ExamplesHold }
{}

pub fn answers()
    ensures ranges { RangeAnswersTell }
    ensures comparisons { SameAnswersTell }
{}
