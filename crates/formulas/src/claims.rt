// What is claimed of formulas over the definitions that the contract of `read` cites. Each function has no code: its contract is the claim.
ghost use Rattle.formulas.specs.Examples.{ExamplesWorked};

#[tactic(auto, using(crate::proofs::Examples::examples_worked))]
pub fn examples()
    ensures { ExamplesWorked }
{}
