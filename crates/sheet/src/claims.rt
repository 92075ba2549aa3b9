// What is claimed of all schedules, of numbers wherever they stand, and of answers. Each function has no code: its contract is the claim.
ghost use Rattle.sheet.specs.LongestSheet.{LongestSheet};
ghost use Rattle.sheet.specs.Results.{TestAnswersTell, ReadAnswersTell, WriteAnswersTell};
ghost use Rattle.sheet.specs.RoundTrip.{NumeralsReadBack};

#[tactic(auto, using(crate::proofs::SheetLength::longest_sheet_is))]
pub fn longest_sheet()
    ensures { LongestSheet }
{}

pub fn numerals_read_back()
    ensures { NumeralsReadBack }
{}

pub fn answers()
    ensures tests { TestAnswersTell }
    ensures reads { ReadAnswersTell }
    ensures writes { WriteAnswersTell }
{}
