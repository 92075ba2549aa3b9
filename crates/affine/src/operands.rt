// What an operation is given: the rows that it is made of, and the symbols of the new row.
ghost use Rattle.std.specs.Prelude.{◌≡◌, ◌≤◌, ◌<◌};
ghost use Rattle.affine.specs.Limits.{symbols, paired, pairs, span_limit};
ghost use Rattle.affine.specs.PairOrder.{first_of, second_of};
ghost use Rattle.affine.specs.Row as Spec;

use crate::Row;

// A row within the span limit, and the sum of its absolute coefficients.
#[derive(Clone, Copy)]
pub struct Operand {
    pub row: Row,
    pub radius: u64,
    pub ghost within: { Spec.span row ≤ span_limit },
    pub ghost summed: { radius ≡ Spec.radius row },
}

// Of a new row: how many symbols have square terms, and the one that it owns. That an operand has no coefficient from that one on stands in clauses: a struct of
// symbols and operands would be another for one operand, for two, and for an operand with its candidate.
#[derive(Clone, Copy)]
pub struct Symbols {
    pub squares: usize,
    pub own: usize,
    pub ghost few: { squares ≤ paired },
    pub ghost owned: { own < symbols },
}

// A pair of symbols, and the index at which it stands.
#[derive(Clone, Copy)]
pub(crate) struct Pair {
    pub first: usize,
    pub second: usize,
    pub index: usize,
    pub ghost inside: { index < pairs },
    pub ghost first_told: { first ≡ first_of index },
    pub ghost second_told: { second ≡ second_of index },
}
