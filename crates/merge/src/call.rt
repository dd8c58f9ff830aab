// The verdict on a merge, and the call that joins it with the booking.
ghost use Rattle.std.specs.Prelude.{Err, ◌≡◌, true, ◌<◌, ◌≤◌, pos, length};
ghost use Rattle.rules.specs.Figures.{is_buy};
ghost use Rattle.rules.specs.Request as Request;
ghost use Rattle.rules.specs.Tables.{sound_record_rows, sound_records, sound_positions};
ghost use Rattle.rules.specs.Handle.{answered};
ghost use Rattle.rules.specs.Merge.{first_of};
ghost use Rattle.rules.specs.Reasons.{number_of, answer_of};
ghost use Rattle.requests.specs.KnownPosition.{KnownPosition};
ghost use Rattle.verdict.specs.Verdict.{Refused, Accepted, judged, judged_at, verdict_on};
ghost use Rattle.verdict.specs.HandledSoundly.{HandledSoundly};
ghost use Rattle.merge_sources.specs.Sources.{source_records};
ghost use Rattle.merge_sources.specs.Located.{RowsKnown};
ghost use Rattle.merge.specs.SourcesFound.{SourcesFound};
ghost use Rattle.merge.specs.SourcesPass.{SourcesPass};

use super::{booking, sources};
use merge_sources::{Source, pairs};
use requests::Held;
use rules::Record;
use rules::codes::{ADJUSTABLE, MOST_QUANTITY};
use rules::refusals::{Confirmation, Reason, Refusal};
use tables::records;

fn refused_at(reason: Reason, place: usize) -> Refusal
    requires { place < 1000 }
    ensures { judged_at (Err result) ≡ Refused (number_of reason) (pos place) }
{
    Refusal {
        reason,
        place: place as i64,
    }
}

// Tests 3 to 5, which find the row of each source; then those of the sources.
pub fn verdict(
    records: &[i64],
    positions: &[i64],
    held: Held,
    id: i64,
    account: i64,
    series: i64,
    pairs: &[i64],
    sources: &mut [Source],
) -> Result<(), Refusal>
    requires { (sound_record_rows records.now ≡ true) × (sound_positions positions.now ≡ true) × KnownPosition positions.now account series held × (1000 ≤ length sources.old) }
    ensures { (judged_at result ≡ verdict_on records.now positions.now (Request.merge id account series pairs.now)) × (judged_at result ≡ Accepted → RowsKnown records.now pairs.now sources.new) }
{
    if !pairs::figures_valid(id, account, series, pairs) {
        return Err(Refusal::from(Reason::OutOfRange));
    }
    let Err(absent) = records::look_up(records, id, 0) else {
        return Err(Refusal::from(Reason::IdUsed));
    };
    if absent.greatest.is_some() {
        return Err(Refusal::from(Reason::IdUsed));
    }
    if let Some(i) = sources::locate(records, pairs, &mut *sources) {
        return Err(refused_at(Reason::NoRecord, i));
    }
    verdict_on_sources(
        records, positions, held, id, account, series, pairs, sources,
    )
}

// Tests 6 to 10, of sources that have records; then those of their sums.
fn verdict_on_sources(
    records: &[i64],
    positions: &[i64],
    held: Held,
    id: i64,
    account: i64,
    series: i64,
    pairs: &[i64],
    sources: &[Source],
) -> Result<(), Refusal>
    requires { SourcesFound records.now positions.now held id account series pairs.now sources.now }
    ensures { judged_at result ≡ verdict_on records.now positions.now (Request.merge id account series pairs.now) }
{
    let elsewhere = |r: Record| requests::is_elsewhere(r, account, series);
    if let Some(i) = sources::first_failing(records, pairs, sources, elsewhere) {
        return Err(refused_at(Reason::Elsewhere, i));
    }
    let not_adjustable = |r: Record| r.status != ADJUSTABLE;
    if let Some(i) = sources::first_failing(records, pairs, sources, not_adjustable) {
        let failing = sources::source_record(records, pairs, sources, i);
        return Err(refused_at(requests::status_refusal(failing.status), i));
    }
    let to_close = |r: Record| figures::is_to_close(r.side);
    if let Some(i) = sources::first_failing(records, pairs, sources, to_close) {
        return Err(refused_at(Reason::ToClose, i));
    }
    if let Some(i) = pairs::first_repeated(pairs) {
        return Err(refused_at(Reason::Repeated, i));
    }
    let first = sources::source_record(records, pairs, sources, 0);
    let buy = figures::is_buy(first.side);
    let other_side = |r: Record| figures::is_buy(r.side) != buy;
    if let Some(i) = sources::first_failing(records, pairs, sources, other_side) {
        return Err(refused_at(Reason::OtherSide, i));
    }
    Ok(verdict_on_sums(
        records, positions, held, id, account, series, pairs, sources, buy,
    )?)
}

// Tests 11 and 13 to 16, of sources that pass 5 to 10.
fn verdict_on_sums(
    records: &[i64],
    positions: &[i64],
    held: Held,
    id: i64,
    account: i64,
    series: i64,
    pairs: &[i64],
    sources: &[Source],
    buy: bool,
) -> Result<(), Reason>
    requires found { SourcesFound records.now positions.now held id account series pairs.now sources.now }
    requires passed { SourcesPass records.now account series pairs.now }
    requires side_is { buy ≡ is_buy (first_of (source_records records.now pairs.now)).side }
    ensures { judged result ≡ verdict_on records.now positions.now (Request.merge id account series pairs.now) }
{
    let quantity = sources::sum_of_quantities(records, pairs, sources);
    if MOST_QUANTITY < quantity {
        return Err(Reason::WrongSum);
    }
    if sources::suffix_above(records, pairs, sources) {
        return Err(Reason::NoSuffix);
    }
    if requests::lacks_records_room(records, pairs.len() / 2 + 1) {
        return Err(Reason::NoRoom);
    }
    let found = held.found;
    let absent = requests::absent_row(found);
    if requests::lacks_positions_room(positions, absent) {
        return Err(Reason::NoPositionsRoom);
    }
    let value = sources::sum_of_values(records, pairs, sources);
    let residual = integers::residual(buy, value, quantity);
    let m = requests::by_residual(residual);
    if !scan::soundness::sound_position(requests::moved(held.position, m)) {
        return Err(Reason::PositionOutOfRange);
    }
    Ok(())
}

pub fn on_sound(
    records: &mut [i64],
    positions: &mut [i64],
    id: i64,
    account: i64,
    series: i64,
    pairs: &[i64],
) -> Result<Confirmation, Refusal>
    requires { (sound_records records.old ≡ true) × (sound_positions positions.old ≡ true) }
    ensures { HandledSoundly records.old positions.old (Request.merge id account series pairs.now) (answered (answer_of result) records.new positions.new) }
{
    let held = requests::position_held(positions, account, series);
    let mut sources = [Source { row: 0, suffix: 0 }; 1000];
    verdict(
        records,
        positions,
        held,
        id,
        account,
        series,
        pairs,
        &mut sources,
    )?;
    Ok(booking::book(
        records, positions, held, id, account, series, pairs, &sources,
    ))
}
