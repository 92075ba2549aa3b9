// Row arithmetic: affine forms with square terms, in whole numbers of 1/4096.
// The seven ways a row comes about are `input`, `constant`, `add`, `subtract`, `multiply`, `invert` (the reciprocal) and `take_root`;
// `within_span` and `same_numbers` tell of rows.
#![tactic(auto)]

pub mod claims; // claims.rt: what is claimed of products
mod by_index;
mod form_range;
pub mod limits;
pub mod operands;
pub mod product;
mod quotient;
pub mod reciprocal;
pub mod root;
pub mod steps;
pub mod sums;

use limits::{PAIRS, SYMBOLS};

// The numbers of a row: the centre, a coefficient for each noise symbol, and one for each pair of symbols.
#[derive(Clone, Copy)]
pub struct Row {
    pub centre: i64,
    pub linear: [i64; SYMBOLS],
    pub pair: [i64; PAIRS],
}

// The low and the high end of what a row's value may be.
#[derive(Clone, Copy)]
pub struct Range {
    pub low: i64,
    pub high: i64,
}

// Why an operation has no row.
#[derive(Clone, Copy, Debug, PartialEq, Eq)]
pub enum NoRow {
    SpanPassed,
    ZeroInRange,
    NoRoot,
}

// A row that an operation made, the sum of its absolute coefficients (its radius) and its own range.
#[derive(Clone, Copy)]
pub struct Made {
    pub row: Row,
    pub radius: u64,
    pub range: Range,
}
