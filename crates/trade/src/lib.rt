// Trade on sound tables: tests 3, 4 and 14 to 16, the booking, and the call that joins them. Its id and its position are looked up once, for the tests and for the booking.
#![tactic(auto)]

ghost use Rattle.std.specs.Prelude.{◌≡◌, true, pos};
ghost use Rattle.std.proofs.Math.Option.{none};
ghost use Rattle.rules.specs.Figures.{valid_quantity, valid_price};
ghost use Rattle.rules.specs.Keyed.{greatest};
ghost use Rattle.rules.specs.Rows.{key_of, record_key, sound_position};
ghost use Rattle.rules.specs.Layout.{rows_of};
ghost use Rattle.rules.specs.Request as Request;
ghost use Rattle.rules.specs.Tables.{records_layout, sound_records, sound_positions};
ghost use Rattle.rules.specs.Handle.{answered};
ghost use Rattle.rules.specs.Reasons.{answer_of, confirmed_by};
ghost use Rattle.rules.specs.Trade as Trade;
ghost use Rattle.rules.specs.Trade.{trade_figures};
ghost use Rattle.lookup.specs.Lookup.{place_in};
ghost use Rattle.requests.specs.KnownPosition.{KnownPosition};
ghost use Rattle.verdict.specs.Verdict.{Accepted, judged, verdict_on, accepted_on};
ghost use Rattle.verdict.specs.HandledSoundly.{HandledSoundly};
ghost use Rattle.trade.specs.Booking.{booking_of, position_after};

use requests::Held;
use rules::codes::{CLOSING_ERROR, ORIGINAL};
use rules::refusals::{Confirmation, Reason, Refusal};
use rules::{Movement, Position};
use tables::{positions, records};

// What a request for a trade names.
#[derive(Clone, Copy)]
pub struct NewTrade {
    pub id: i64,
    pub account: i64,
    pub series: i64,
    pub side: i64,
    pub quantity: i64,
    pub price: i64,
}

// What a trade closes and books.
#[derive(Clone, Copy)]
pub struct Booking {
    pub closed: i64,
    pub movement: Movement,
    pub error: bool,
}

#[tactic(auto, unfolding(rules::specs::Trade::trade_figures))]
pub fn figures_valid(
    id: i64,
    account: i64,
    series: i64,
    side: i64,
    quantity: i64,
    price: i64,
) -> bool
    ensures { result ≡ trade_figures id account series side quantity price }
{
    figures::valid_id(id)
        && figures::valid_account(account)
        && figures::valid_series(series)
        && figures::valid_side(side)
        && figures::valid_quantity(quantity)
        && figures::valid_price(price)
}

// The smaller of the quantity and what is open against it, for a trade to close; nothing for a trade to open.
fn closed_by(t: NewTrade, p: Position) -> i64
    ensures { result ≡ Trade.closed_by t.side t.quantity p }
{
    if !figures::is_to_close(t.side) {
        return 0;
    }
    let open = if figures::is_buy(t.side) {
        p.short
    } else {
        p.long
    };
    if t.quantity <= open { t.quantity } else { open }
}

fn booking_of(t: NewTrade, p: Position) -> Booking
    requires { (valid_quantity t.quantity ≡ true) × (sound_position p ≡ true) × (valid_price t.price ≡ true) }
    ensures { result ≡ booking_of t.side t.quantity t.price p }
{
    let closed = closed_by(t, p);
    let opened = t.quantity - closed;
    let undone = -closed;
    let error = figures::is_to_close(t.side) && closed < t.quantity;
    let (long, short) = if figures::is_buy(t.side) {
        (opened, undone)
    } else {
        (undone, opened)
    };
    let movement = requests::in_booked(t.side, t.quantity, t.price, long, short);
    Booking {
        closed,
        movement,
        error,
    }
}

// The position as the trade will leave it.
fn position_after(t: NewTrade, p: Position) -> Position
    requires { (valid_quantity t.quantity ≡ true) × (sound_position p ≡ true) × (valid_price t.price ≡ true) }
    ensures { result ≡ position_after t.side t.quantity t.price p }
{
    let b = booking_of(t, p);
    requests::moved(p, b.movement)
}

// Tests 14 to 16, of a new id.
fn verdict(records: &[i64], positions: &[i64], held: Held, t: NewTrade) -> Result<(), Reason>
    requires { (sound_records records.now ≡ true) × (sound_positions positions.now ≡ true) × (trade_figures t.id t.account t.series t.side t.quantity t.price ≡ true) × (greatest record_key t.id (rows_of records_layout records.now) ≡ none) × KnownPosition positions.now t.account t.series held }
    ensures { judged result ≡ verdict_on records.now positions.now (Request.trade t.id t.account t.series t.side t.quantity t.price) }
{
    if requests::lacks_records_room(records, 1) {
        return Err(Reason::NoRoom);
    }
    let found = held.found;
    let absent = requests::absent_row(found);
    if requests::lacks_positions_room(positions, absent) {
        return Err(Reason::NoPositionsRoom);
    }
    let left = position_after(t, held.position);
    if !scan::soundness::sound_position(left) {
        return Err(Reason::PositionOutOfRange);
    }
    Ok(())
}

// The record goes to the place that the lookup said.
fn book(
    records: &mut [i64],
    positions: &mut [i64],
    place: usize,
    held: Held,
    t: NewTrade,
) -> Confirmation
    requires { (sound_records records.old ≡ true) × (sound_positions positions.old ≡ true) × (verdict_on records.old positions.old (Request.trade t.id t.account t.series t.side t.quantity t.price) ≡ Accepted) × KnownPosition positions.old t.account t.series held × (place ≡ place_in records_layout (key_of t.id (pos 0)) records.old) }
    ensures { answered (confirmed_by result) records.new positions.new ≡ accepted_on records.old positions.old (Request.trade t.id t.account t.series t.side t.quantity t.price) }
{
    let found = held.found;
    let p = held.position;
    let b = booking_of(t, p);
    let m = b.movement;
    let kind = if b.error { CLOSING_ERROR } else { ORIGINAL };
    let today = records::today(records);
    let row = requests::new_record(
        today, t.id, kind, t.account, t.series, t.side, t.quantity, t.price, m.long, m.short,
    );
    records::insert_record(records, place, row);
    let left = requests::moved(p, m);
    positions::write_position(positions, found, left);
    if b.error {
        let excess = t.quantity - b.closed;
        Confirmation::ClosingError { excess }
    } else {
        Confirmation::Booked {
            rows: 1,
            residual: 0,
        }
    }
}

pub fn on_sound(
    records: &mut [i64],
    positions: &mut [i64],
    id: i64,
    account: i64,
    series: i64,
    side: i64,
    quantity: i64,
    price: i64,
) -> Result<Confirmation, Refusal>
    requires { (sound_records records.old ≡ true) × (sound_positions positions.old ≡ true) }
    ensures { HandledSoundly records.old positions.old (Request.trade id account series side quantity price) (answered (answer_of result) records.new positions.new) }
{
    if !figures_valid(id, account, series, side, quantity, price) {
        return Err(Refusal::from(Reason::OutOfRange));
    }
    let Err(absent) = records::look_up(records, id, 0) else {
        return Err(Refusal::from(Reason::IdUsed));
    };
    if absent.greatest.is_some() {
        return Err(Refusal::from(Reason::IdUsed));
    }
    let t = NewTrade {
        id,
        account,
        series,
        side,
        quantity,
        price,
    };
    let held = requests::position_held(positions, account, series);
    verdict(records, positions, held, t)?;
    Ok(book(records, positions, absent.place, held, t))
}
