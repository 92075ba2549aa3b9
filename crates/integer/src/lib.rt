// Exact whole-number arithmetic on i64 and u64. The laws that a caller's proof cites stand in `proofs/`, one file a subject.
#![tactic(auto)]

pub mod claims; // claims.rt: what is claimed of the definitions
pub mod division; // division.rt: quotient and remainder rounded down, quotient rounded up
pub mod magnitude; // magnitude.rt: absolute values
pub mod root; // root.rt: the whole-number root
