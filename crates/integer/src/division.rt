// Division rounded down, toward minus infinity, by a divisor of either sign; to the nearest, by 4096; and rounded up.
ghost use Rattle.std.specs.Prelude.{◌≡◌, ◌≢◌, ◌↔◌, ℤ, ◌<◌, ◌≤◌, IsTrue, pos, negsuc, nat_abs, ◌*ℤ◌, ◌<ℤ◌, ◌≤ℤ◌};
ghost use Rattle.std.specs.Int.{w64};
ghost use Rattle.std.proofs.Common.{SFits};
ghost use Rattle.integer.specs.Floor.{floor_quotient, floor_remainder, rounded_up, ceiling_quotient, left_over, IsFloor};
ghost use Rattle.integer.specs.Nearest.{nearest_quotient, nearest_remainder, IsNearest};

// a over d, rounded down. Only the least number over -1 is out of range.
// That d is not 0 stands in three clauses here: a `NonZero` would ask more of callers.
// Branch by branch, since one test of both signs, as for the remainder, takes 2 in 100 more instructions of a reciprocal.
pub fn floor_quotient(a: i64, d: i64) -> i64
    requires { (d ≢ pos 0) × SFits w64 (floor_quotient a d) }
    ensures value { result ≡ floor_quotient a d }

    // the right quotient, and the only one
    ensures floor { IsFloor a d result (left_over a d result) }
    ensures only { (q r : ℤ) → IsFloor a d q r → q ≡ result }
{
    let q = a / d;
    let r = a % d;
    if d > 0 {
        if r < 0 { q - 1 } else { q }
    } else {
        if r > 0 { q - 1 } else { q }
    }
}

// Whether r lies on the other side of 0 than d: of the machine's remainder by d, that the machine rounded up.
fn is_across(r: i64, d: i64) -> bool
    requires { d ≢ pos 0 }
    ensures { IsTrue result ↔ ((r *ℤ d) <ℤ pos 0) }
{
    if d > 0 { r < 0 } else { r > 0 }
}

// What the quotient rounded down leaves of a: 0, or on d's side of it. It wraps, since the machine has no remainder of the least number by -1.
pub fn floor_remainder(a: i64, d: i64) -> i64
    requires { d ≢ pos 0 }
    ensures value { result ≡ floor_remainder a d }

    // the right remainder, and the only one
    ensures floor { IsFloor a d (floor_quotient a d) result }
    ensures only { (q r : ℤ) → IsFloor a d q r → r ≡ result }
{
    let r = a.wrapping_rem(d);
    if is_across(r, d) { r + d } else { r }
}

// a over 4096, rounded down: the shift copies the sign, in one instruction where div_euclid takes four.
pub fn floor_quotient_4096(a: i64) -> i64
    ensures value { result ≡ floor_quotient a (pos 4096) }
    ensures floor { IsFloor a (pos 4096) result (left_over a (pos 4096) result) }
    ensures only { (q r : ℤ) → IsFloor a (pos 4096) q r → q ≡ result }
{
    a >> 12
}

// a over 4096, to the nearest, exact halves upward: in halves of 4096, rounded down by a shift as above, one more, and that halved.
pub fn nearest_quotient_4096(a: i64) -> i64
    ensures value { result ≡ nearest_quotient a 4096 }

    // quotient and what it leaves are the right pair, and the only one
    ensures nearest { IsNearest a 4096 result (left_over a (pos 4096) result) }
    ensures only { (q r : ℤ) → IsNearest a 4096 q r → q ≡ result }

    // no whole number leaves less, and one that leaves as much is not above: exact halves go upward
    ensures none_nearer { (p : ℤ) → nat_abs (left_over a (pos 4096) result) ≤ nat_abs (left_over a (pos 4096) p) }
    ensures halves_upward { (p : ℤ) → nat_abs (left_over a (pos 4096) p) ≡ nat_abs (left_over a (pos 4096) result) → p ≤ℤ result }

    // from -2048 to 2047
    ensures remainder { (negsuc 2047 ≤ℤ left_over a (pos 4096) result) × (left_over a (pos 4096) result ≤ℤ pos 2047) }
{
    ((a >> 11) + 1) >> 1
}

// The absolute value of what that quotient leaves, 0 to 2048: what the quotient rounded down leaves, or what that lacks of 4096.
pub fn nearest_remainder_4096(a: i64) -> u64
    ensures value { result ≡ nat_abs (nearest_remainder a 4096) }
    ensures only { (q r : ℤ) → IsNearest a 4096 q r → result ≡ nat_abs r }
    ensures none_nearer { (p : ℤ) → result ≤ nat_abs (left_over a (pos 4096) p) }
    ensures at_most { result ≤ 2048 }
{
    let low = a.rem_euclid(4096) as u64;
    low.min(4096 - low)
}

// n over d, rounded up: the library's method, with the definition that the proofs go by. Rounded up as whole numbers of either sign are, it is the same.
pub fn ceiling_quotient(n: u64, d: u64) -> u64
    requires { 0 < d }
    ensures value { result ≡ ceiling_quotient n d }
    ensures up { pos result ≡ rounded_up (pos n) (pos d) }
{
    n.div_ceil(d)
}
