// Separation on sound tables: tests 3, 5 to 7, 11, 13 and 14, the booking, and the call that joins them. The record is looked up once. The position does not move.
#![tactic(auto)]

ghost use Rattle.std.specs.Prelude.{◌≡◌, true, map, ◌≤◌, length};
ghost use Rattle.rules.specs.Figures.{valid_count, valid_quantity};
ghost use Rattle.rules.specs.Refusal.{all_of};
ghost use Rattle.rules.specs.Request as Request;
ghost use Rattle.rules.specs.Tables.{sound_records, sound_positions};
ghost use Rattle.rules.specs.Handle.{answered};
ghost use Rattle.rules.specs.Reasons.{answer_of, confirmed_by};
ghost use Rattle.rules.specs.Separation.{sum_of, separation_figures};
ghost use Rattle.requests.specs.KnownRecord.{KnownRecord};
ghost use Rattle.verdict.specs.Verdict.{Accepted, judged, verdict_on, accepted_on};
ghost use Rattle.verdict.specs.HandledSoundly.{HandledSoundly};

use requests::Named;
use rules::codes::{ADJUSTABLE, GREATEST_SUFFIX, SEPARATION};
use rules::refusals::{Confirmation, Reason, Refusal};
use tables::records;

fn parts_valid(parts: &[i64]) -> bool
    ensures { result ≡ all_of (map valid_quantity parts.now) }
{
    parts.iter().all(|&q| figures::valid_quantity(q))
}

// 2 to 1,000 parts.
#[tactic(auto, unfolding(rules::specs::Figures::valid_count))]
fn count_valid(count: usize) -> bool
    ensures { result ≡ valid_count count }
{
    (2..=1000).contains(&count)
}

#[tactic(auto, unfolding(rules::specs::Separation::separation_figures))]
pub fn figures_valid(id: i64, suffix: i64, account: i64, series: i64, parts: &[i64]) -> bool
    ensures { result ≡ separation_figures id suffix account series parts.now }
{
    figures::valid_id(id)
        && figures::valid_suffix(suffix)
        && figures::valid_account(account)
        && figures::valid_series(series)
        && count_valid(parts.len())
        && parts_valid(parts)
}

fn sum_of(parts: &[i64]) -> i64
    requires { (length parts.now ≤ 1000) × (all_of (map valid_quantity parts.now) ≡ true) }
    ensures { result ≡ sum_of parts.now }
{
    let mut sum: i64 = 0;
    for &part in parts {
        sum += part;
    }
    sum
}

// Tests 6, 7, 11, 13 and 14, of the record that was found.
pub fn verdict(
    records: &[i64],
    positions: &[i64],
    named: Named,
    id: i64,
    suffix: i64,
    account: i64,
    series: i64,
    parts: &[i64],
) -> Result<(), Reason>
    requires { (sound_records records.now ≡ true) × (sound_positions positions.now ≡ true) × (separation_figures id suffix account series parts.now ≡ true) × KnownRecord records.now id suffix named }
    ensures { judged result ≡ verdict_on records.now positions.now (Request.separate id suffix account series parts.now) }
{
    let r = named.record;
    if requests::is_elsewhere(r, account, series) {
        return Err(Reason::Elsewhere);
    }
    if r.status != ADJUSTABLE {
        return Err(requests::status_refusal(r.status));
    }
    if sum_of(parts) != r.quantity {
        return Err(Reason::WrongSum);
    }
    let last = named.next + parts.len() as i64;
    if GREATEST_SUFFIX < last {
        return Err(Reason::NoSuffix);
    }
    if requests::lacks_records_room(records, parts.len() + 1) {
        return Err(Reason::NoRoom);
    }
    Ok(())
}

// The record adjusted, its inverse, and one adjustable row a part in the order given.
pub fn book(
    records: &mut [i64],
    positions: &[i64],
    named: Named,
    id: i64,
    suffix: i64,
    account: i64,
    series: i64,
    parts: &[i64],
) -> Confirmation
    requires { (sound_records records.old ≡ true) × (sound_positions positions.now ≡ true) × (verdict_on records.old positions.now (Request.separate id suffix account series parts.now) ≡ Accepted) × KnownRecord records.old id suffix named }
    ensures { answered (confirmed_by result) records.new positions.now ≡ accepted_on records.old positions.now (Request.separate id suffix account series parts.now) }
{
    let r = named.record;
    let next = named.next;
    let today = records::today(records);
    let inverse = requests::inverse_record(today, r, next, SEPARATION, 0, 0, 0);
    let first = requests::adjustable_record(
        today,
        r,
        next + 1,
        SEPARATION,
        r.account,
        r.quantity,
        0,
        0,
    );
    requests::adjust_named(records, id, suffix, named, inverse, first, parts);
    let rows = parts.len() as i64 + 1;
    Confirmation::Booked { rows, residual: 0 }
}

pub fn on_sound(
    records: &mut [i64],
    positions: &mut [i64],
    id: i64,
    suffix: i64,
    account: i64,
    series: i64,
    parts: &[i64],
) -> Result<Confirmation, Refusal>
    requires { (sound_records records.old ≡ true) × (sound_positions positions.old ≡ true) }
    ensures { HandledSoundly records.old positions.old (Request.separate id suffix account series parts.now) (answered (answer_of result) records.new positions.new) }
{
    if !figures_valid(id, suffix, account, series, parts) {
        return Err(Refusal::from(Reason::OutOfRange));
    }
    let Ok(there) = records::look_up(records, id, suffix) else {
        return Err(Refusal::from(Reason::NoRecord));
    };
    let named = requests::record_named(records, id, suffix, there);
    verdict(
        records, positions, named, id, suffix, account, series, parts,
    )?;
    Ok(book(
        records, positions, named, id, suffix, account, series, parts,
    ))
}
