// Account transfer on sound tables: tests 3, 5 to 8 and 12 to 16, the booking, and the call that joins them. The record and both positions are looked up once.
#![tactic(auto)]

ghost use Rattle.std.specs.Prelude.{◌≡◌, true, pos, neg_ℤ};
ghost use Rattle.rules.specs.Figures.{magnitude_at_most, valid_price};
ghost use Rattle.rules.specs.Rows.{sound_position, moved, inverse_record, adjustable_record};
ghost use Rattle.rules.specs.Request as Request;
ghost use Rattle.rules.specs.Tables.{sound_record_rows, sound_records, sound_positions};
ghost use Rattle.rules.specs.Handle.{answered};
ghost use Rattle.rules.specs.Reasons.{answer_of, confirmed_by};
ghost use Rattle.rules.specs.Transfer.{transfer_figures, in_long, in_short, in_side, holds_too_little};
ghost use Rattle.requests.specs.KnownPosition.{KnownPosition};
ghost use Rattle.requests.specs.KnownRecord.{KnownRecord};
ghost use Rattle.verdict.specs.Moving.{moving_effects, moving_verdict, records_after, positions_after};
ghost use Rattle.verdict.specs.Verdict.{Accepted, judged, verdict_on, accepted_on};
ghost use Rattle.verdict.specs.HandledSoundly.{HandledSoundly};
ghost use Rattle.transfer.specs.MovingReady.{MovingReady};

use requests::{Held, Named};
use rules::codes::{ADJUSTABLE, GREATEST_SUFFIX, TRANSFER};
use rules::refusals::{Confirmation, Reason, Refusal};
use rules::{Position, Record};
use tables::{positions, records};

#[tactic(auto, unfolding(rules::specs::Transfer::transfer_figures))]
pub fn figures_valid(id: i64, suffix: i64, from: i64, to: i64, series: i64) -> bool
    ensures { result ≡ transfer_figures id suffix from to series }
{
    figures::valid_id(id)
        && figures::valid_suffix(suffix)
        && figures::valid_account(from)
        && figures::valid_account(to)
        && figures::valid_series(series)
        && from != to
}

// An amount as booked to long and to short: in the cell of its side, 0 in the other.
#[tactic(auto, unfolding(rules::specs::Transfer::in_long, rules::specs::Transfer::in_short))]
fn in_cells(side: i64, amount: i64) -> (i64, i64)
    ensures { result ≡ (in_long side amount, in_short side amount) }
{
    if figures::is_buy(side) {
        (amount, 0)
    } else {
        (0, amount)
    }
}

// 12: the old account's long (buy) or short (sell) is below the quantity.
#[tactic(auto, unfolding(rules::specs::Transfer::holds_too_little))]
fn holds_too_little(r: Record, p: Position) -> bool
    ensures { result ≡ holds_too_little r p }
{
    if figures::is_buy(r.side) {
        p.long < r.quantity
    } else {
        p.short < r.quantity
    }
}

// A position with an amount more in the figure of the record's side, and in the totals, at the record's price.
fn shifted(p: Position, r: Record, amount: i64) -> Position
    requires { (sound_position p ≡ true) × (magnitude_at_most 1000000 amount ≡ true) × (valid_price r.price ≡ true) }
    ensures { result ≡ moved p (in_side r.side amount r.price) }
{
    let (long, short) = in_cells(r.side, amount);
    requests::moved(p, requests::in_booked(r.side, amount, r.price, long, short))
}

// The inverse row in the old account, and the row that arrives in the new one, each of a type.
pub fn inverse_row(today: i64, r: Record, next: i64, kind: i64) -> Record
    requires { magnitude_at_most 1000000 r.quantity ≡ true }
    ensures { result ≡ inverse_record today r next kind (in_long r.side (neg_ℤ r.quantity)) (in_short r.side (neg_ℤ r.quantity)) (pos 0) }
{
    let (long, short) = in_cells(r.side, -r.quantity);
    requests::inverse_record(today, r, next, kind, long, short, 0)
}

pub fn arrived_row(today: i64, r: Record, suffix: i64, to: i64, kind: i64) -> Record
    ensures { result ≡ adjustable_record today r suffix kind to r.quantity (in_long r.side r.quantity) (in_short r.side r.quantity) }
{
    let (long, short) = in_cells(r.side, r.quantity);
    requests::adjustable_record(today, r, suffix, kind, to, r.quantity, long, short)
}

// Tests 6 to 8, of the record that was found; then those of the positions.
pub fn verdict(
    records: &[i64],
    positions: &[i64],
    named: Named,
    old: Held,
    new: Held,
    id: i64,
    suffix: i64,
    from: i64,
    to: i64,
    series: i64,
) -> Result<(), Reason>
    requires tables_sound { (sound_record_rows records.now ≡ true) × (sound_positions positions.now ≡ true) }
    requires looked_up { (transfer_figures id suffix from to series ≡ true) × KnownRecord records.now id suffix named × KnownPosition positions.now from series old × KnownPosition positions.now to series new }
    ensures { judged result ≡ verdict_on records.now positions.now (Request.transfer id suffix from to series) }
{
    let r = named.record;
    if requests::is_elsewhere(r, from, series) {
        return Err(Reason::Elsewhere);
    }
    if r.status != ADJUSTABLE {
        return Err(requests::status_refusal(r.status));
    }
    if figures::is_to_close(r.side) {
        return Err(Reason::ToClose);
    }
    verdict_on_positions(
        records, positions, named, old, new, id, suffix, from, to, series,
    )
}

// Tests 12 to 16 of a record that moves to another account: of a transfer, and of the step that completes a give-up.
pub fn verdict_on_positions(
    records: &[i64],
    positions: &[i64],
    named: Named,
    old: Held,
    new: Held,
    id: i64,
    suffix: i64,
    from: i64,
    to: i64,
    series: i64,
) -> Result<(), Reason>
    requires tables_sound { (sound_record_rows records.now ≡ true) × (sound_positions positions.now ≡ true) }
    requires looked_up { KnownRecord records.now id suffix named × KnownPosition positions.now from series old × KnownPosition positions.now to series new }
    ensures { judged result ≡ moving_verdict records.now positions.now named.record id from to series }
{
    let r = named.record;
    if holds_too_little(r, old.position) {
        return Err(Reason::HoldsTooLittle);
    }
    if GREATEST_SUFFIX < named.next + 1 {
        return Err(Reason::NoSuffix);
    }
    if requests::lacks_records_room(records, 2) {
        return Err(Reason::NoRoom);
    }
    let old_found = old.found;
    let new_found = new.found;
    let absent = requests::absent_row(old_found) + requests::absent_row(new_found);
    if requests::lacks_positions_room(positions, absent) {
        return Err(Reason::NoPositionsRoom);
    }
    let left = shifted(old.position, r, -r.quantity);
    if !scan::soundness::sound_position(left) {
        return Err(Reason::PositionOutOfRange);
    }
    let reached = shifted(new.position, r, r.quantity);
    if !scan::soundness::sound_position(reached) {
        return Err(Reason::PositionOutOfRange);
    }
    Ok(())
}

// The record adjusted, the two rows that come out of it, and both positions: of a transfer, and of the step that completes a give-up. `leaving` and `arriving` are the types of the
// inverse row and of the new one. The old account's row is there, since it holds the quantity: writing it moves no row, and what was found of the new account's is so still.
pub fn book_moved(
    records: &mut [i64],
    positions: &mut [i64],
    named: Named,
    old: Held,
    new: Held,
    id: i64,
    suffix: i64,
    from: i64,
    to: i64,
    series: i64,
    leaving: i64,
    arriving: i64,
)
    requires { MovingReady records.old positions.old named old new id suffix from to series leaving arriving }
    ensures { (records.new ≡ records_after (moving_effects leaving arriving records.old positions.old named.record id from to series) records.old) × (positions.new ≡ positions_after (moving_effects leaving arriving records.old positions.old named.record id from to series) positions.old) }
{
    let r = named.record;
    let next = named.next;
    let today = records::today(records);
    let inverse = inverse_row(today, r, next, leaving);
    let arrived = arrived_row(today, r, next + 1, to, arriving);
    let quantity = [r.quantity];
    let old_found = old.found;
    let new_found = new.found;
    requests::adjust_named(records, id, suffix, named, inverse, arrived, &quantity);
    let taken = shifted(old.position, r, -r.quantity);
    let given = shifted(new.position, r, r.quantity);
    positions::write_position(&mut *positions, old_found, taken);
    positions::write_position(positions, new_found, given);
}

pub fn book(
    records: &mut [i64],
    positions: &mut [i64],
    named: Named,
    old: Held,
    new: Held,
    id: i64,
    suffix: i64,
    from: i64,
    to: i64,
    series: i64,
) -> Confirmation
    requires accepted { (sound_records records.old ≡ true) × (sound_positions positions.old ≡ true) × (verdict_on records.old positions.old (Request.transfer id suffix from to series) ≡ Accepted) }
    requires looked_up { KnownRecord records.old id suffix named × KnownPosition positions.old from series old × KnownPosition positions.old to series new }
    ensures { answered (confirmed_by result) records.new positions.new ≡ accepted_on records.old positions.old (Request.transfer id suffix from to series) }
{
    book_moved(
        records, positions, named, old, new, id, suffix, from, to, series, TRANSFER, TRANSFER,
    );
    Confirmation::Booked {
        rows: 2,
        residual: 0,
    }
}

pub fn on_sound(
    records: &mut [i64],
    positions: &mut [i64],
    id: i64,
    suffix: i64,
    from: i64,
    to: i64,
    series: i64,
) -> Result<Confirmation, Refusal>
    requires { (sound_records records.old ≡ true) × (sound_positions positions.old ≡ true) }
    ensures { HandledSoundly records.old positions.old (Request.transfer id suffix from to series) (answered (answer_of result) records.new positions.new) }
{
    if !figures_valid(id, suffix, from, to, series) {
        return Err(Refusal::from(Reason::OutOfRange));
    }
    let Ok(there) = records::look_up(records, id, suffix) else {
        return Err(Refusal::from(Reason::NoRecord));
    };
    let named = requests::record_named(records, id, suffix, there);
    let old = requests::position_held(positions, from, series);
    let new = requests::position_held(positions, to, series);
    let passed = verdict(
        records, positions, named, old, new, id, suffix, from, to, series,
    );
    match passed {
        // Bound before it is answered: a wrong answer in its place is then refused by a fact.
        Err(reason) => {
            let refusal = Refusal::from(reason);
            Err(refusal)
        }
        Ok(()) => Ok(book(
            records, positions, named, old, new, id, suffix, from, to, series,
        )),
    }
}
