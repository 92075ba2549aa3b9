// What is claimed of any products, and of answers. Each function has no code: its contract is the claim.
ghost use Rattle.affine.specs.Agreement.{ProductsAgree};
ghost use Rattle.affine.specs.Product.{RoundsToNearest, RemaindersRun};
ghost use Rattle.affine.specs.Told.{AnswersTell};

#[tactic(auto, using(crate::proofs::Rounding::rounds_to_nearest))]
pub fn rounds_to_nearest()
    ensures { RoundsToNearest }
{}

#[tactic(auto, using(crate::proofs::Rounding::remainders_run))]
pub fn remainders_run()
    ensures { RemaindersRun }
{}

pub fn products_agree()
    ensures { ProductsAgree }
{}

pub fn answers()
    ensures { AnswersTell }
{}
