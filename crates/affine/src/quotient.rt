// The division that serves the coefficients of a candidate, of a reciprocal and of a root: most of a row's coefficients are 0.
ghost use Rattle.std.specs.Prelude.{◌≡◌, ◌≢◌, pos};
ghost use Rattle.std.specs.Int.{w64};
ghost use Rattle.std.proofs.Common.{SFits};
ghost use Rattle.integer.specs.Floor.{floor_quotient};

use integer::division::floor_quotient;

// A total over a divisor, rounded down. 0 is not divided.
#[tactic(auto, using(integer::proofs::Floor::zero_quotient))]
pub(crate) fn quotient_unless_zero(total: i64, divisor: i64) -> i64
    requires some { divisor ≢ pos 0 }
    requires fits { SFits w64 (floor_quotient total divisor) }
    ensures { result ≡ floor_quotient total divisor }
{
    if total == 0 {
        return 0;
    }
    floor_quotient(total, divisor)
}
