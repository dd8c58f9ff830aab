// The shifter: the part of a lent table from the insertion row on is lent to it, and it moves the rows there up and writes the new one. One for every table; the row's
// length is its width. Where a request adds several rows, its own shifter moves them all up at once by `move_up` and writes each by `replace_row`.
#![tactic(auto)]

ghost use Rattle.std.specs.Prelude.{◌≡◌, ◌++◌, suc, ◌+◌, ◌-◌, ◌*◌, ◌≤◌, ◌<◌, length, take, drop};
ghost use Rattle.shifter.specs.Insertion.{inserted, replaced, raised};

use rules::layout::{POSITION_WIDTH, PROCESS_WIDTH, RECORD_WIDTH};

// The first `used` cells moved up by `by`.
fn move_by(tail: &mut [i64], used: usize, by: usize)
    requires { used + by ≤ length tail.old }
    ensures { tail.new ≡ raised by used tail.old }
{
    tail.copy_within(..used, by);
}

// The cells of two to four records.
const TWO_RECORDS: usize = 2 * RECORD_WIDTH;

const THREE_RECORDS: usize = 3 * RECORD_WIDTH;

const FOUR_RECORDS: usize = 4 * RECORD_WIDTH;

// The same, with the distance in the text, of which the compiler makes one block move. Tried without: a move takes up to 2.6 times as long.
pub fn move_up(tail: &mut [i64], used: usize, by: usize)
    requires { used + by ≤ length tail.old }
    ensures { tail.new ≡ raised by used tail.old }
{
    match by {
        RECORD_WIDTH => move_by(tail, used, RECORD_WIDTH),
        POSITION_WIDTH => move_by(tail, used, POSITION_WIDTH),
        TWO_RECORDS => move_by(tail, used, TWO_RECORDS),
        THREE_RECORDS => move_by(tail, used, THREE_RECORDS),
        FOUR_RECORDS => move_by(tail, used, FOUR_RECORDS),
        PROCESS_WIDTH => move_by(tail, used, PROCESS_WIDTH),
        _ => move_by(tail, used, by),
    }
}

// A row's cells written over the first cells.
fn overwrite(tail: &mut [i64], row: &[i64])
    requires { length row.now ≤ length tail.old }
    ensures { tail.new ≡ row.now ++ drop (length row.now) tail.old }
{
    tail[..row.len()].copy_from_slice(row);
}

// The rows of the part moved up by one row, and the new row written before them.
pub fn shift_in(tail: &mut [i64], used: usize, row: &[i64])
    requires { used + length row.now ≤ length tail.old }
    ensures { tail.new ≡ row.now ++ (take used tail.old ++ drop (used + length row.now) tail.old) }
{
    move_up(&mut *tail, used, row.len());
    overwrite(tail, row);
}

// A row inserted as row `place` of a table with `count` rows, and the count raised. `header` is the number of cells before the first row.
pub fn insert_row(cells: &mut [i64], header: usize, count: usize, place: usize, row: &[i64])
    requires { (1 ≤ header) × (place ≤ count) × (header + suc count * length row.now ≤ length cells.old) × (count < 4096) }
    ensures { cells.new ≡ inserted header (length row.now) row.now 1 count place cells.old }
{
    let width = row.len();
    let at = header + place * width;
    let used = (count - place) * width;
    shift_in(&mut cells[at..], used, row);
    cells[0] = (count + 1) as i64;
}

// The cells of row `place` written anew.
pub fn replace_row(cells: &mut [i64], header: usize, place: usize, row: &[i64])
    requires { header + suc place * length row.now ≤ length cells.old }
    ensures { cells.new ≡ replaced header row.now place cells.old }
{
    let at = header + place * row.len();
    overwrite(&mut cells[at..], row);
}
