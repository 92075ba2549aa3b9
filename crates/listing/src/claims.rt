// A sheet, a refusal and the sizes that follow from the limits, each computed from the definitions. Each function has no code: its contract is the claim.
ghost use Rattle.listing.specs.Examples.{ListingPrinted, RefusalPrinted};
ghost use Rattle.listing.specs.Widths.{WidthsAre, PairsInOrder, LastInputsMeet};

#[tactic(auto, using(crate::proofs::Examples::listing_printed, crate::proofs::Examples::refusal_printed))]
pub fn examples()
    ensures listing { ListingPrinted }
    ensures refusal { RefusalPrinted }
{}

#[tactic(auto, using(crate::proofs::Widths::widths_are, crate::proofs::Widths::pairs_in_order, crate::proofs::Widths::last_inputs_meet))]
pub fn widths()
    ensures numbers { WidthsAre }
    ensures pairs { PairsInOrder }
    ensures last { LastInputsMeet }
{}
