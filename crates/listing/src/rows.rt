// The rows that an accepted evaluation left in both tables: they are within the span limit and no low of theirs is above its high, so no number is looked at
// twice.
ghost use Rattle.std.specs.Prelude.{◌≡◌, ◌≤◌};
ghost use Rattle.std.specs.Option.{unwrap_or};
ghost use Rattle.evaluation.specs.Table.{RangesOrdered};
ghost use Rattle.listing.specs.Listing.{own, first_same, row_numbers};
ghost use Rattle.listing.specs.Held.{RowsHeld};

use evaluation::table;

/// So many rows of a table, and their ranges of another. The count stands beside the slices, which are the caller's whole tables: cut to the rows, each of
/// the slices would still be one of numbers, and their count a division.
#[derive(Clone, Copy)]
pub(crate) struct Rows<'a> {
    pub table: &'a [i64],
    pub ranges: &'a [i64],
    pub count: usize,
    ghost held: { RowsHeld table.now count },
    ghost ordered: { RangesOrdered ranges.now count },
}

impl<'a> Rows<'a> {
    // Each asks for the number of one of the rows: they are counted from 1, as they are printed.

    // The first earlier row with identical numbers.
    fn first_same(&self, row: usize) -> Option<usize>
        requires { (1 ≤ row) × (row ≤ self.now.count) }
        ensures { unwrap_or result 0 ≡ first_same self.now.table.now self.now.count row }
    {
        (1..row).find(|&earlier| table::same_rows(self.table, earlier - 1, row - 1))
    }

    // A row's own coefficient: it stands behind the centre and the coefficients of the symbols before it.
    fn own(&self, row: usize) -> i64
        requires { (1 ≤ row) × (row ≤ self.now.count) }
        ensures { result ≡ own self.now.table.now self.now.count row }
    {
        table::row_part(self.table, row - 1)[row]
    }

    // The numbers of a row's line.
    pub(crate) fn numbers(&self, row: usize) -> [i64; 5]
        requires { (1 ≤ row) × (row ≤ self.now.count) }
        ensures { result ≡ row_numbers self.now.table.now self.now.ranges.now self.now.count row }
    {
        let range = table::get_range(self.ranges, row - 1);
        // 0 for none, as it is printed
        let same = self.first_same(row).unwrap_or(0);
        [
            row as i64,
            range.low,
            range.high,
            self.own(row),
            same as i64,
        ]
    }
}
