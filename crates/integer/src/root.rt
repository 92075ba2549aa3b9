// The whole-number root, rounded down.
ghost use Rattle.std.specs.Prelude.{◌≡◌, ℕ, ◌*◌, ◌^◌, ◌<◌, ◌≤◌};
ghost use Rattle.integer.specs.Root.{IsRoot};
ghost use Rattle.integer.specs.Root as Spec;

// The root of n, which is below 4 to the power BITS, bit by bit from the highest: each round halves the width of the gap that the root lies in, from r up.
fn search<const BITS: u32>(n: u64) -> u64
    requires { (BITS ≤ 32) × (n < 4 ^ BITS) }
    ensures { result ≡ Spec.root n }
{
    let mut r: u64 = 0;
    for bit in (0..BITS).rev() {
        let t = r + (1 << bit);
        if t * t <= n {
            r = t;
        }
    }
    r
}

// The root of n: 22 rounds where n is below 2^44, as 4096 times an end of a range is, or else 32. Either search is written out by the compiler.
// Not by u64::isqrt, which takes two and a half times the instructions.
#[tactic(auto, using(crate::proofs::RootLaws::root_unique))]
pub fn root(n: u64) -> u64
    ensures value { result ≡ Spec.root n }

    // the number whose square is not above n and whose successor's is, and the only one
    ensures root { IsRoot n result }
    ensures only { (r : ℕ) → IsRoot n r → r ≡ result }
{
    if n < 1 << 44 {
        search::<22>(n)
    } else {
        search::<32>(n)
    }
}
