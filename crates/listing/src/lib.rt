// The text of a sheet, listing or refusal, written whole into lent bytes (manual, section 3).
#![tactic(auto)]

ghost use Rattle.std.specs.Prelude.{◌≡◌, ◌≤◌, ◌↔◌, List, ℕ, length, take, IfOk};
ghost use Rattle.sheet.specs.Wrote.{Wrote};
ghost use Rattle.sheet.specs.Causes.{accepted};
ghost use Rattle.sheet.specs.Results.{write_answer};
ghost use Rattle.evaluation.specs.Work.{evaluated};
ghost use Rattle.listing.specs.Listing.{schedule_text, table_left, ranges_left, table_numbers, ranges_numbers, printed};
ghost use Rattle.listing.specs.Listed.{Listed, BeginningOf, text_room};
ghost use Rattle.listing.specs.Truthful.{IsListing, IsAccepted, LinesTrue, Truthful};
ghost use Rattle.listing.specs.Legible.{ScheduleLegible, Legible};

use rows::Rows;
use sheet::{Cause, Refused, Schedule, ensure};

pub mod claims; // claims.rt: a sheet and its listing byte by byte, and the numbers that follow from the limits
mod rows; // rows.rt: the line of a row
mod texts; // texts.rt: the listing of a table's rows, and a refusal

// A refusal as it is printed, for programs that print refusals of other calls.
pub use texts::put_refusal;

// As many bytes as every text fits into.
pub const TEXT_ROOM: usize = 4096;

// Evaluates a schedule into the lent tables and writes its listing, or its refusal. It asks for the room that `list` has tested.
fn list_schedule(
    schedule: Schedule,
    table: &mut [i64],
    ranges: &mut [i64],
    text: &mut [u8],
) -> usize
    requires { text_room ≤ length text.old }
    ensures wrote { Wrote text.old text.new 0 result (schedule_text schedule table.old ranges.old) }
    ensures left { table.new ≡ table_left schedule table.old ranges.old }
    ensures told { ranges.new ≡ ranges_left schedule table.old ranges.old }
    ensures listing { IsListing (take result text.new) ↔ ((evaluated schedule table.old ranges.old).refusal ≡ accepted) }
    ensures truthful { IsListing (take result text.new) → LinesTrue schedule (take result text.new) }
    ensures legible { ScheduleLegible schedule table.old ranges.old table.new ranges.new (take result text.new) }
{
    match evaluation::evaluate(schedule, table, ranges) {
        Ok(()) => {
            let rows = Rows {
                table,
                ranges,
                count: evaluation::row_count(schedule),
            };
            texts::put_listing(text, &rows)
        }
        Err(refused) => texts::put_refusal(text, refused.cause.number(), refused.place),
    }
}

// Reads a sheet, evaluates it into the lent tables and writes the whole text that is printed, its listing or its refusal, at the start of the lent
// bytes: any bytes, any tables. Fewer than TEXT_ROOM bytes for the text are refused with 8, and nothing is touched.
pub fn list(
    sheet: &[u8],
    table: &mut [i64],
    ranges: &mut [i64],
    text: &mut [u8],
) -> Result<usize, Refused>
    ensures listed { Listed sheet.now table.old table.new ranges.old ranges.new text.old text.new (write_answer result) }
    ensures fits { IfOk result (λ n. n ≤ text_room) }

    // More bytes of a longer input change nothing.
    ensures beginning { (input : List ℕ) → BeginningOf input sheet.now
        → Listed input table.old table.new ranges.old ranges.new text.old text.new (write_answer result) }

    // What the tables held before does not matter, where they hold every row and range.
    ensures any_table { table_numbers ≤ length table.old → ranges_numbers ≤ length ranges.old
        → IfOk result (λ n. take n text.new ≡ printed sheet.now) }

    ensures listing { IfOk result (λ n. IsListing (take n text.new) ↔ IsAccepted sheet.now table.old ranges.old) }
    ensures truthful { IfOk result (λ n. Truthful sheet.now (take n text.new)) }
    ensures legible { IfOk result (λ n. Legible sheet.now table.old ranges.old table.new ranges.new (take n text.new)) }
{
    ensure(TEXT_ROOM <= text.len(), Cause::RoomTooShort, 0)?;
    Ok(match sheet::read(sheet) {
        Ok(schedule) => list_schedule(schedule, table, ranges, text),
        Err(refused) => texts::put_refusal(text, refused.cause.number(), refused.place),
    })
}
