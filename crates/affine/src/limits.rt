// The limits and units of a row (manual, section 5); specs/Limits.antt states each of them.
ghost use Rattle.std.specs.Prelude.{◌≡◌, pos};
ghost use Rattle.affine.specs.Limits.{symbols, paired, pairs, unit, half_unit, unit_squared, span_limit};

use capacity::{MAX_INPUTS, MAX_ROWS};

pub const SYMBOLS: usize = MAX_ROWS;

pub const PAIRED: usize = MAX_INPUTS;

pub const PAIRS: usize = PAIRED * (PAIRED + 1) / 2;

pub const UNIT: u64 = 4096;

pub const HALF_UNIT: i64 = 2048;

pub const UNIT_SQUARED: i64 = 16777216;

pub const SPAN_LIMIT: u64 = 1073741824;

// The constants are the limits and units that definitions and laws go by. It has no code: its contract says so.
pub fn limits()
    ensures symbols { SYMBOLS ≡ symbols }
    ensures paired { PAIRED ≡ paired }
    ensures pairs { PAIRS ≡ pairs }
    ensures unit { UNIT ≡ unit }
    ensures half_unit { HALF_UNIT ≡ pos half_unit }
    ensures unit_squared { UNIT_SQUARED ≡ pos unit_squared }
    ensures span_limit { SPAN_LIMIT ≡ span_limit }
{}
