// The texts that are printed: the listing of the rows that two tables hold, and a refusal.
ghost use Rattle.std.specs.Prelude.{◌+◌, ◌≤◌, length};
ghost use Rattle.sheet.specs.Text.{texts};
ghost use Rattle.sheet.specs.Wrote.{Wrote};
ghost use Rattle.sheet.specs.Causes.{refusal};
ghost use Rattle.listing.specs.Listing.{row_text, listing, refusal_text};
ghost use Rattle.listing.specs.Listed.{text_room};

use crate::rows::Rows;

// Writes the lines of the tables' rows from a position on. A position beside the bytes, and no slice from there on: `Wrote` speaks of all the lent bytes.
fn put_rows(text: &mut [u8], at: usize, rows: &Rows) -> usize
    requires { at + length (texts rows.now.count 1 (row_text rows.now.table.now rows.now.ranges.now rows.now.count)) ≤ length text.old }
    ensures { Wrote text.old text.new at result (texts rows.now.count 1 (row_text rows.now.table.now rows.now.ranges.now rows.now.count)) }
{
    let mut p = at;
    // by number: the rows are no slice, and each line is printed with its number
    for i in 0..rows.count {
        p = sheet::put_fields(text, p, &rows.numbers(i + 1));
    }
    p
}

// Writes the listing of the tables' rows at the start of the bytes. It asks for room for any text, as `put_refusal` does. A slice, and
// no array of so many bytes: `Wrote` speaks of all the lent bytes.
pub(crate) fn put_listing(text: &mut [u8], rows: &Rows) -> usize
    requires { text_room ≤ length text.old }
    ensures { Wrote text.old text.new 0 result (listing rows.now.table.now rows.now.ranges.now rows.now.count) }
{
    let at = sheet::put_bytes(text, 0, b"row low high own same\n");
    put_rows(text, at, rows)
}

// Writes a refusal at the start of the bytes: any number, any place. So the number is no `Cause`.
pub fn put_refusal(text: &mut [u8], number: u64, place: usize) -> usize
    requires { text_room ≤ length text.old }
    ensures { Wrote text.old text.new 0 result (refusal_text (refusal number place)) }
{
    let at = sheet::put_bytes(text, 0, b"refused place\n");
    let at = sheet::put_count(text, at, number);
    let at = sheet::put_bytes(text, at, b" ");
    let at = sheet::put_count(text, at, place as u64);
    sheet::put_bytes(text, at, b"\n")
}
