// The records table, once its rows are sound: its rows, its lookup, and its changes.
ghost use Rattle.std.specs.Prelude.{◌≡◌, true, ◌<◌, length};
ghost use Rattle.std.proofs.Math.Option.{none};
ghost use Rattle.rules.specs.Keyed.{find, upsert};
ghost use Rattle.rules.specs.Rows.{record_key, sound_record, with_status};
ghost use Rattle.rules.specs.Layout.{row_at, room_of, rows_of, write};
ghost use Rattle.rules.specs.Tables.{records_layout, current_day, sound_record_rows};
ghost use Rattle.lookup.specs.Sought.{sought_told};
ghost use Rattle.lookup.specs.Lookup.{place_in, record_sought};
ghost use Rattle.tables.specs.Parent.{ParentAt};

use lookup::{Absent, Present};
use rules::Record;
use rules::layout::{DAY_CELL, RECORD_WIDTH, RECORDS_HEADER, STATUS_CELL};
use scan::rows;

pub fn count(cells: &[i64]) -> usize
    requires { sound_record_rows cells.now ≡ true }
    ensures { result ≡ length (rows_of records_layout cells.now) }
{
    scan::soundness::count::<Record>(cells)
}

// The current day (document 02, K8), which new rows take.
pub fn today(cells: &[i64]) -> i64
    requires { sound_record_rows cells.now ≡ true }
    ensures { result ≡ current_day cells.now }
{
    cells[DAY_CELL]
}

// How many rows there is room for.
pub fn room(cells: &[i64]) -> usize
    ensures { result ≡ room_of records_layout cells.now }
{
    scan::soundness::room::<Record>(cells)
}

// The lookup (document 02, K2): what the table has of an id and suffix.
pub fn look_up(cells: &[i64], id: i64, suffix: i64) -> Result<Present, Absent>
    requires { sound_record_rows cells.now ≡ true }
    ensures { sought_told result ≡ record_sought cells.now id suffix }
{
    lookup::look_up(
        cells,
        RECORDS_HEADER,
        RECORD_WIDTH,
        count(cells),
        id,
        suffix,
    )
}

// Row `row`, from 0.
pub fn read_record(cells: &[i64], row: usize) -> Record
    requires { (sound_record_rows cells.now ≡ true) × (row < length (rows_of records_layout cells.now)) }
    ensures { result ≡ row_at records_layout cells.now row }
{
    rows::record_at(cells, RECORDS_HEADER + row * RECORD_WIDTH)
}

// The parent of the record in row `row`: it stands no later than the record does.
pub fn find_parent(cells: &[i64], row: usize, r: Record) -> Result<usize, usize>
    requires { (sound_record_rows cells.now ≡ true) × (row < length (rows_of records_layout cells.now)) × (r ≡ row_at records_layout cells.now row) }
    ensures { ParentAt cells.now r result }
{
    lookup::find_by_distance(
        cells,
        RECORDS_HEADER,
        RECORD_WIDTH,
        row + 1,
        r.suffix,
        r.id,
        r.parent,
    )
}

// A new row, at the place where its key belongs.
pub fn insert_record(cells: &mut [i64], place: usize, r: Record)
    requires { (sound_record_rows cells.old ≡ true) × (sound_record r ≡ true) × (find record_key (record_key r) (rows_of records_layout cells.old) ≡ none) × (length (rows_of records_layout cells.old) < room_of records_layout cells.old) × (place ≡ place_in records_layout (record_key r) cells.old) }
    ensures { (cells.new ≡ write records_layout cells.old (upsert record_key r (rows_of records_layout cells.old))) × (sound_record_rows cells.new ≡ true) }
{
    let n = count(cells);
    let row = rows::record_cells(r);
    shifter::insert_row(cells, RECORDS_HEADER, n, place, &row);
}

// Another status in row `row`, in which the record is sound.
pub fn set_status(cells: &mut [i64], row: usize, status: i64)
    requires { (sound_record_rows cells.old ≡ true) × (row < length (rows_of records_layout cells.old)) × (sound_record (with_status status (row_at records_layout cells.old row)) ≡ true) }
    ensures { (cells.new ≡ write records_layout cells.old (upsert record_key (with_status status (row_at records_layout cells.old row)) (rows_of records_layout cells.old))) × (sound_record_rows cells.new ≡ true) }
{
    cells[RECORDS_HEADER + row * RECORD_WIDTH + STATUS_CELL] = status;
}
