// The positions table, once it passes test 2: its rows, its lookup, and its changes.
ghost use Rattle.std.specs.Prelude.{◌≡◌, true, ◌∷◌, [], ◌+◌, ◌≤◌, length};
ghost use Rattle.rules.specs.Keyed.{find, upsert, absent_from};
ghost use Rattle.rules.specs.Rows.{key_of, position_key, sound_position, or_zeros};
ghost use Rattle.rules.specs.Layout.{room_of, rows_of, write};
ghost use Rattle.rules.specs.Tables.{positions_layout, sound_positions};
ghost use Rattle.lookup.specs.Found.{found_told};
ghost use Rattle.lookup.specs.Lookup.{position_found};

use rules::Position;
use rules::layout::{POSITION_WIDTH, POSITIONS_HEADER};
use scan::rows;

pub fn count(cells: &[i64]) -> usize
    requires { sound_positions cells.now ≡ true }
    ensures { result ≡ length (rows_of positions_layout cells.now) }
{
    scan::soundness::count::<Position>(cells)
}

pub fn room(cells: &[i64]) -> usize
    ensures { result ≡ room_of positions_layout cells.now }
{
    scan::soundness::room::<Position>(cells)
}

pub fn find_position(cells: &[i64], account: i64, series: i64) -> Result<usize, usize>
    requires { sound_positions cells.now ≡ true }
    ensures { found_told result ≡ position_found cells.now account series }
{
    lookup::find_row(
        cells,
        POSITIONS_HEADER,
        POSITION_WIDTH,
        count(cells),
        account,
        series,
    )
}

// The position of an account and series, by what the lookup found; zeros where it has no row.
pub fn read_position(
    cells: &[i64],
    found: Result<usize, usize>,
    account: i64,
    series: i64,
) -> Position
    requires { (sound_positions cells.now ≡ true) × (found_told found ≡ position_found cells.now account series) }
    ensures { result ≡ or_zeros account series (find position_key (key_of account series) (rows_of positions_layout cells.now)) }
{
    match found {
        Ok(row) => rows::position_at(cells, POSITIONS_HEADER + row * POSITION_WIDTH),
        Err(_) => Position {
            account,
            series,
            long: 0,
            short: 0,
            cash: 0,
            quantity: 0,
            value: 0,
        },
    }
}

// The row of its key written anew, or made at the place where it belongs, by what the lookup found.
pub fn write_position(cells: &mut [i64], found: Result<usize, usize>, p: Position)
    requires { (sound_positions cells.old ≡ true) × (sound_position p ≡ true) × (length (rows_of positions_layout cells.old) + absent_from position_key (rows_of positions_layout cells.old) (p ∷ []) ≤ room_of positions_layout cells.old) × (found_told found ≡ position_found cells.old p.account p.series) }
    ensures { (cells.new ≡ write positions_layout cells.old (upsert position_key p (rows_of positions_layout cells.old))) × (sound_positions cells.new ≡ true) }
{
    let n = count(cells);
    let row = rows::position_cells(p);
    match found {
        Ok(at) => shifter::replace_row(cells, POSITIONS_HEADER, at, &row),
        Err(place) => shifter::insert_row(cells, POSITIONS_HEADER, n, place, &row),
    }
}
