// What is claimed of the definitions, of any numbers; the functions of this library promise it of their answers. Each function has no code: its contract is
// the claim.
ghost use Rattle.integer.specs.Floor.{FloorDivides, FloorUnique, UpsAgree};
ghost use Rattle.integer.specs.Nearest.{QuotientIsNearest, NearestUnique, NoneNearer, HalvesUpward};
ghost use Rattle.integer.specs.Root.{RootIsRoot, RootUnique, FloorRootIsRoot};

pub fn floor()
    ensures pair { FloorDivides }
    ensures only { FloorUnique }
    ensures ups_agree { UpsAgree }
{}

pub fn nearest()
    ensures pair { QuotientIsNearest }
    ensures only { NearestUnique }
    ensures none_nearer { NoneNearer }
    ensures halves_upward { HalvesUpward }
{}

pub fn root()
    ensures root { RootIsRoot }
    ensures only { RootUnique }
    ensures of_fractions { FloorRootIsRoot }
{}
