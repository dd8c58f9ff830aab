// The rows that come out of a record, inserted together: the records table from their place on is lent to a shifter, which moves the rows there up, once, and writes the
// new ones: the record's inverse, then one row a quantity.
ghost use Rattle.std.specs.Prelude.{◌≡◌, ◌++◌, suc, ◌+◌, ◌*◌, ◌≤◌, pos, length, take, drop, ◌≤ℤ◌};
ghost use Rattle.rules.specs.Keyed.{upsert_all};
ghost use Rattle.rules.specs.Rows.{record_key};
ghost use Rattle.rules.specs.Layout.{encode, rows_of, write};
ghost use Rattle.rules.specs.Tables.{record_cells, records_layout};
ghost use Rattle.shifter.specs.Insertion.{replaced, filled};
ghost use Rattle.tables.specs.NewRows.{numbered_as, rows_like, new_rows, NewRowsReady};

use super::records;
use rules::Record;
use rules::layout::{RECORD_WIDTH, RECORDS_HEADER};
use scan::rows;

// As a struct update it was tried, and the proof did not close.
fn numbered_as(r: Record, suffix: i64, quantity: i64) -> Record
    ensures { result ≡ numbered_as r suffix quantity }
{
    let mut row = r;
    row.suffix = suffix;
    row.quantity = quantity;
    row
}

// The cells of row `row` of a part written anew.
fn write_record(part: &mut [i64], row: usize, r: Record)
    requires { suc row * records_layout.width ≤ length part.old }
    ensures { part.new ≡ replaced 0 (record_cells r) row part.old }
{
    let row_cells = rows::record_cells(r);
    shifter::replace_row(part, 0, row, &row_cells);
}

// One row a quantity, from row `place` of a part on.
fn write_rows(part: &mut [i64], place: usize, first: Record, quantities: &[i64])
    requires { ((place + length quantities.now) * records_layout.width ≤ length part.old) × (pos 0 ≤ℤ first.suffix) × (first.suffix ≤ℤ pos 65536) × (length quantities.now ≤ 65535) }
    ensures { part.new ≡ filled 0 records_layout.width (encode record_cells (rows_like first first.suffix quantities.now)) place part.old }
{
    let mut suffix = first.suffix;
    let mut at = 0;
    while at < quantities.len() {
        let quantity = quantities[at];
        write_record(&mut *part, place + at, numbered_as(first, suffix, quantity));
        suffix += 1;
        at += 1;
    }
}

// The shifter: the first `used` cells of the part moved up, and the new rows before them.
fn shift_in_rows(part: &mut [i64], used: usize, inverse: Record, first: Record, quantities: &[i64])
    requires { (used + suc (length quantities.now) * records_layout.width ≤ length part.old) × (pos 0 ≤ℤ first.suffix) × (first.suffix ≤ℤ pos 65536) × (length quantities.now ≤ 65535) }
    ensures { part.new ≡ encode record_cells (new_rows inverse first quantities.now) ++ (take used part.old ++ drop (used + suc (length quantities.now) * records_layout.width) part.old) }
{
    shifter::move_up(&mut *part, used, (quantities.len() + 1) * RECORD_WIDTH);
    write_record(&mut *part, 0, inverse);
    write_rows(part, 1, first, quantities);
}

pub fn insert_rows(
    cells: &mut [i64],
    place: usize,
    inverse: Record,
    first: Record,
    quantities: &[i64],
)
    requires { NewRowsReady cells.old place inverse first quantities.now }
    ensures { cells.new ≡ write records_layout cells.old (upsert_all record_key (new_rows inverse first quantities.now) (rows_of records_layout cells.old)) }
{
    let n = records::count(cells);
    let at = RECORDS_HEADER + place * RECORD_WIDTH;
    let used = (n - place) * RECORD_WIDTH;
    shift_in_rows(&mut cells[at..], used, inverse, first, quantities);
    cells[0] = (n + quantities.len() + 1) as i64;
}
