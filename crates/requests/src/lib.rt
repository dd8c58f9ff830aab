// What several requests share: what was looked up of a record and of a position, the room tests, a position's change, a new row, and the rows that come out of a record.
#![tactic(auto)]

ghost use Rattle.std.specs.Prelude.{Ok, ◌≡◌, true, ◌∷◌, ◌+◌, ◌≤◌, ltb, pos, length};
ghost use Rattle.rules.specs.Figures.{magnitude_at_most, valid_price};
ghost use Rattle.rules.specs.Reasons.{number_of};
ghost use Rattle.rules.specs.NamedRecord.{is_elsewhere, status_refusal};
ghost use Rattle.rules.specs.Keyed.{upsert_all};
ghost use Rattle.rules.specs.Rows as Rows;
ghost use Rattle.rules.specs.Rows.{record_key};
ghost use Rattle.rules.specs.Layout.{room_of, rows_of, write};
ghost use Rattle.rules.specs.Tables.{records_layout, positions_layout, sound_record_rows, sound_positions};
ghost use Rattle.lookup.specs.Lookup.{record_sought};
ghost use Rattle.lookup.specs.Sought.{sought_told};
ghost use Rattle.tables.specs.NewRows.{new_rows};
ghost use Rattle.verdict.specs.MovedReady.{MovedReady};
ghost use Rattle.requests.specs.AbsentRow.{absent_row};
ghost use Rattle.requests.specs.AdjustReady.{AdjustReady};
ghost use Rattle.requests.specs.KnownPosition.{KnownPosition};
ghost use Rattle.requests.specs.KnownRecord.{KnownRecord};

use lookup::Present;
use rules::codes::{ADJUSTABLE, ADJUSTED, INVERSE, UNDER_GIVE_UP};
use rules::refusals::Reason;
use rules::{Movement, Position, Record};
use tables::{new_rows, positions, records};

// A position as it was looked up: the row with its key, or as an error the place where it belongs; and its figures, zeros where it has no row.
#[derive(Clone, Copy)]
pub struct Held {
    pub found: Result<usize, usize>,
    pub position: Position,
}

// A record that a request names, as it was looked up: its row, the next suffix of its id, and the place where that belongs.
#[derive(Clone, Copy)]
pub struct Named {
    pub record: Record,
    pub row: usize,
    pub next: i64,
    pub place: usize,
}

pub fn position_held(cells: &[i64], account: i64, series: i64) -> Held
    requires { sound_positions cells.now ≡ true }
    ensures { KnownPosition cells.now account series result }
{
    let found = positions::find_position(cells, account, series);
    let position = positions::read_position(cells, found, account, series);
    Held { found, position }
}

// What the lookup said of a record that is there.
pub fn record_named(cells: &[i64], id: i64, suffix: i64, there: Present) -> Named
    requires { (sound_record_rows cells.now ≡ true) × (record_sought cells.now id suffix ≡ sought_told (Ok there)) }
    ensures { KnownRecord cells.now id suffix result }
{
    let row = there.row;
    let place = there.next;
    let record = records::read_record(cells, row);
    let next = there.greatest + 1;
    Named {
        record,
        row,
        next,
        place,
    }
}

// 14: row count plus new rows exceeds the records room.
pub fn lacks_records_room(cells: &[i64], added: usize) -> bool
    requires { (sound_record_rows cells.now ≡ true) × (added ≤ 1001) }
    ensures { result ≡ ltb (room_of records_layout cells.now) (length (rows_of records_layout cells.now) + added) }
{
    records::room(cells) < records::count(cells) + added
}

// 15: row count plus needed absent rows exceeds the positions room.
pub fn lacks_positions_room(cells: &[i64], added: usize) -> bool
    requires { (sound_positions cells.now ≡ true) × (added ≤ 2) }
    ensures { result ≡ ltb (room_of positions_layout cells.now) (length (rows_of positions_layout cells.now) + added) }
{
    positions::room(cells) < positions::count(cells) + added
}

// 1 where the lookup found no row, else 0.
pub fn absent_row(found: Result<usize, usize>) -> usize
    ensures { result ≡ absent_row found }
{
    match found {
        Ok(_) => 0,
        Err(_) => 1,
    }
}

// A position with its figures changed by signed amounts.
pub fn moved(p: Position, m: Movement) -> Position
    requires { MovedReady p m }
    ensures { result ≡ Rows.moved p m }
{
    Position {
        account: p.account,
        series: p.series,
        long: p.long + m.long,
        short: p.short + m.short,
        cash: p.cash + m.cash,
        quantity: p.quantity + m.quantity,
        value: p.value + m.value,
    }
}

// A quantity that comes to a position on this side at this price, or leaves it where the amount is negative, with what is booked to long and short.
pub fn in_booked(side: i64, amount: i64, price: i64, long: i64, short: i64) -> Movement
    requires { (magnitude_at_most 1000000 amount ≡ true) × (valid_price price ≡ true) }
    ensures { result ≡ Rows.in_booked side amount price long short }
{
    let quantity = figures::signed(side, amount);
    let value = quantity * price;
    Movement {
        long,
        short,
        cash: 0,
        quantity,
        value,
    }
}

// A merge's residual, in cash and in the value.
pub fn by_residual(residual: i64) -> Movement
    ensures { result ≡ Rows.by_residual residual }
{
    Movement {
        long: 0,
        short: 0,
        cash: residual,
        quantity: 0,
        value: residual,
    }
}

// The named record becomes status 1, and the rows that come out of it are inserted: its inverse, and one row a quantity, like the first.
pub fn adjust_named(
    records: &mut [i64],
    id: i64,
    suffix: i64,
    named: Named,
    inverse: Record,
    first: Record,
    quantities: &[i64],
)
    requires { AdjustReady records.old id suffix named inverse first quantities.now }
    ensures { records.new ≡ write records_layout records.old (upsert_all record_key (Rows.adjusted_record named.record ∷ new_rows inverse first quantities.now) (rows_of records_layout records.old)) }
{
    let row = named.row;
    let place = named.place;
    records::set_status(&mut *records, row, ADJUSTED);
    new_rows::insert_rows(records, place, inverse, first, quantities);
}

// 6: its account or series isn't the one named.
pub fn is_elsewhere(r: Record, account: i64, series: i64) -> bool
    ensures { result ≡ is_elsewhere account series r }
{
    r.account != account || r.series != series
}

// 7, or 17 while a give-up is under way: the refusal of a record of this status, which isn't 0.
pub fn status_refusal(status: i64) -> Reason
    ensures { number_of result ≡ pos (status_refusal status) }
{
    if status == UNDER_GIVE_UP {
        Reason::UnderGiveUp
    } else {
        Reason::NotAdjustable
    }
}

// A row with suffix 0, parent 0 and status 0: a trade's, and the merged one. New rows take the current day, here as in the two below.
pub fn new_record(
    today: i64,
    id: i64,
    kind: i64,
    account: i64,
    series: i64,
    side: i64,
    quantity: i64,
    price: i64,
    long: i64,
    short: i64,
) -> Record
    ensures { result ≡ Rows.new_record today id kind account series side quantity price long short }
{
    Record {
        id,
        suffix: 0,
        parent: 0,
        kind,
        status: ADJUSTABLE,
        account,
        series,
        side,
        quantity,
        price,
        long,
        short,
        into: 0,
        day: today,
    }
}

// The inverse of a record: quantity negated, the record's suffix as parent.
pub fn inverse_record(
    today: i64,
    r: Record,
    suffix: i64,
    kind: i64,
    long: i64,
    short: i64,
    into: i64,
) -> Record
    requires { magnitude_at_most 1000000 r.quantity ≡ true }
    ensures { result ≡ Rows.inverse_record today r suffix kind long short into }
{
    Record {
        id: r.id,
        suffix,
        parent: r.suffix,
        kind,
        status: INVERSE,
        account: r.account,
        series: r.series,
        side: r.side,
        quantity: -r.quantity,
        price: r.price,
        long,
        short,
        into,
        day: today,
    }
}

// An adjustable row that comes out of a record.
pub fn adjustable_record(
    today: i64,
    r: Record,
    suffix: i64,
    kind: i64,
    account: i64,
    quantity: i64,
    long: i64,
    short: i64,
) -> Record
    ensures { result ≡ Rows.adjustable_record today r suffix kind account quantity long short }
{
    Record {
        id: r.id,
        suffix,
        parent: r.suffix,
        kind,
        status: ADJUSTABLE,
        account,
        series: r.series,
        side: r.side,
        quantity,
        price: r.price,
        long,
        short,
        into: 0,
        day: today,
    }
}
