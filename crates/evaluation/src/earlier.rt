// The rows before a step's, as the tables hold them, with their own ranges and their radii.
ghost use Rattle.std.specs.Prelude.{◌≡◌, ◌<◌};
ghost use Rattle.evaluation.specs.Table.{row_at, range_at, RowsWithin, RangesOf, Operands};

use crate::table::{get_range, get_row};
use affine::operands::Operand;
use affine::{Range, Row};

/// So many rows, each within the span limit; what a list or a table holds behind them is not looked at. The count stands beside the slices: cut to it, all
/// three would be cut anew for each row, and the methods would ask the same of an index. Three slices side by side: two are the caller's tables.
#[derive(Clone, Copy)]
pub(crate) struct Earlier<'a> {
    pub table: &'a [i64],
    pub ranges: &'a [i64],
    pub radii: &'a [u64],
    pub count: usize,
    ghost within: { RowsWithin table.now count },
    ghost ranged: { RangesOf table.now ranges.now count },
    ghost summed: { Operands table.now radii.now count },
}

impl<'a> Earlier<'a> {
    // Each asks for the index of one of the rows, as a slice does.
    #[inline]
    pub(crate) fn row(&self, k: usize) -> Row
        requires { k < self.now.count }
        ensures { result ≡ row_at self.now.table.now k }
    {
        get_row(self.table, k)
    }

    #[inline]
    pub(crate) fn range(&self, k: usize) -> Range
        requires { k < self.now.count }
        ensures { result ≡ range_at self.now.ranges.now k }
    {
        get_range(self.ranges, k)
    }

    // A row with its radius.
    #[inline]
    pub(crate) fn operand(&self, k: usize) -> Operand
        requires { k < self.now.count }
        ensures { result.row ≡ row_at self.now.table.now k }
    {
        Operand {
            row: get_row(self.table, k),
            radius: self.radii[k],
        }
    }
}
