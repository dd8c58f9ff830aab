// Tests 1, 2 and 19: any slice, of any length and content. One pass over the rows that the count names, and no read past them.
ghost use Rattle.std.specs.Prelude.{◌≡◌, true, ◌≤◌, ◌<◌, length};
ghost use Rattle.rules.specs.Rows.{sound_record, sound_position};
ghost use Rattle.rules.specs.ProcessRows.{sound_process};
ghost use Rattle.rules.specs.Layout.{room_for, room_of, rows_of, start_of, count_is_sound};
ghost use Rattle.rules.specs.Tables.{sound_table, sound_records, sound_positions, sound_processes};
ghost use Rattle.scan.specs.Scan.{rows_rise_sound};

use super::rows;
use super::rows::Row;
use rules::codes::LAST_DAY;
use rules::layout::DAY_CELL;
use rules::{Position, ProcessRow, Record};

// How many whole rows fit into so many cells, at most `most`.
#[tactic(auto, unfolding(rules::specs::Layout::room_for))]
pub fn room_for(header: usize, width: usize, most: usize, cells: usize) -> usize
    requires { 0 < width }
    ensures { result ≡ room_for header width most cells }
{
    most.min(cells.saturating_sub(header) / width)
}

// How many rows of a table there is room for.
pub fn room<R: Row>(cells: &[i64]) -> usize
    ensures { result ≡ room_of R.layout cells.now }
{
    room_for(R::HEADER, R::WIDTH, R::MOST, cells.len())
}

// The slice has a header, and the count lies between 0 and the room.
fn count_sound<R: Row>(cells: &[i64]) -> bool
    ensures { result ≡ count_is_sound R.layout cells.now }
{
    R::HEADER <= cells.len() && figures::in_range(0, room::<R>(cells) as i64, cells[0])
}

// The count of a table whose count is sound.
pub fn count<R: Row>(cells: &[i64]) -> usize
    requires { count_is_sound R.layout cells.now ≡ true }
    ensures { result ≡ length (rows_of R.layout cells.now) }
{
    cells[0] as usize
}

// The kind comes last: its test, a table of bits, then keeps no other cell waiting in a register. The day is tested before (`Row::sound_on`). Without the hint a program that calls
// it elsewhere too, as `tables_main`, calls it for each row, and its scan takes a quarter longer.
#[inline]
#[tactic(auto, unfolding(rules::specs::Rows::sound_record))]
pub fn sound_record(r: Record) -> bool
    ensures { result ≡ sound_record r }
{
    figures::valid_id(r.id)
        && figures::valid_suffix(r.suffix)
        && figures::valid_suffix(r.parent)
        && figures::valid_status(r.status)
        && figures::valid_account(r.account)
        && figures::valid_series(r.series)
        && figures::valid_side(r.side)
        && figures::valid_signed_quantity(r.status, r.quantity)
        && figures::valid_price(r.price)
        && figures::valid_booked(r.long)
        && figures::valid_booked(r.short)
        && figures::valid_into(r.into)
        && figures::valid_parent(r.parent, r.suffix)
        && figures::valid_kind(r.kind)
}

#[tactic(auto, unfolding(rules::specs::Rows::sound_position))]
pub fn sound_position(p: Position) -> bool
    ensures { result ≡ sound_position p }
{
    figures::in_range(0, 1_000_000_000_000, p.long)
        && figures::in_range(0, 1_000_000_000_000, p.short)
        && figures::in_range(-1_000_000_000_000_000, 1_000_000_000_000_000, p.cash)
        && figures::valid_total(p.quantity)
        && figures::valid_total(p.value)
}

#[tactic(auto, unfolding(rules::specs::ProcessRows::sound_process))]
pub fn sound_process(r: ProcessRow) -> bool
    ensures { result ≡ sound_process r }
{
    figures::valid_id(r.process)
        && figures::valid_id(r.id)
        && figures::valid_suffix(r.suffix)
        && figures::valid_account(r.giving)
        && figures::valid_account(r.taking)
        && figures::valid_series(r.series)
        && figures::valid_approval(r.giver)
        && figures::valid_approval(r.taker)
        && figures::valid_stage(r.stage)
}

// So many rows rise, and each is sound. The loop ends at the last row by a test in the turn, which serves the compiler for both: a turn has one test of the row's number.
fn rows_rise_sound<R: Row>(cells: &[i64], count: usize, today: i64) -> bool
    requires { start_of R.layout count ≤ length cells.now }
    ensures { result ≡ rows_rise_sound R.layout R.key (R.sound_on today) count cells.now }
{
    for row in 0..count {
        let r = rows::row_at::<R>(cells, row);
        if !r.sound_on(today) {
            return false;
        }
        if row + 1 == count {
            return true;
        }
        if !r.comes_before(rows::row_at(cells, row + 1)) {
            return false;
        }
    }
    true
}

fn table_sound<R: Row>(cells: &[i64], today: i64) -> bool
    ensures { result ≡ sound_table R.layout R.key (R.sound_on today) cells.now }
{
    count_sound::<R>(cells) && rows_rise_sound::<R>(cells, count::<R>(cells), today)
}

// Test 1.
pub fn records_sound(cells: &[i64]) -> bool
    ensures { result ≡ sound_records cells.now }
{
    DAY_CELL < cells.len()
        && figures::in_range(0, LAST_DAY, cells[DAY_CELL])
        && table_sound::<Record>(cells, cells[DAY_CELL])
}

// Test 2.
#[tactic(auto, unfolding(rules::specs::Tables::sound_positions))]
pub fn positions_sound(cells: &[i64]) -> bool
    ensures { result ≡ sound_positions cells.now }
{
    table_sound::<Position>(cells, 0)
}

// Test 19.
#[tactic(auto, unfolding(rules::specs::Tables::sound_processes))]
pub fn processes_sound(cells: &[i64]) -> bool
    ensures { result ≡ sound_processes cells.now }
{
    table_sound::<ProcessRow>(cells, 0)
}
