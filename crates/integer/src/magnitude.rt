// Absolute values.
ghost use Rattle.std.specs.Prelude.{◌≡◌, nat_abs};

// |a|, of the least number too. The library's method under a public name of this crate, with the promise that callers outside have.
pub fn absolute(a: i64) -> u64
    ensures { result ≡ nat_abs a }
{
    a.unsigned_abs()
}
