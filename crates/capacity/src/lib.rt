// The limits that the widths of schedules, rows and tables come from (manual, sections 2.4 and 5.1). specs/Limits.antt has the same names for definitions and
// laws.
#![tactic(auto)]

ghost use Rattle.std.specs.Prelude.{◌≡◌};
ghost use Rattle.capacity.specs.Limits.{max_inputs, max_steps, max_rows};

pub const MAX_INPUTS: usize = 8;

pub const MAX_STEPS: usize = 40;

pub const MAX_ROWS: usize = MAX_INPUTS + MAX_STEPS;

// The constants are the limits that definitions and laws go by. It has no code: its contract says so.
pub fn limits()
    ensures inputs { MAX_INPUTS ≡ max_inputs }
    ensures steps { MAX_STEPS ≡ max_steps }
    ensures rows { MAX_ROWS ≡ max_rows }
{}
