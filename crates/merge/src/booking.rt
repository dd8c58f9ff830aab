// The changes of an accepted merge.
ghost use Rattle.std.specs.Prelude.{◌≡◌, true, false, [], map, ◌+◌, ◌≤◌, ◌<◌, pos, length};
ghost use Rattle.std.proofs.Math.Option.{none};
ghost use Rattle.rules.specs.Keyed.{is_some, find, upsert, upsert_all};
ghost use Rattle.rules.specs.Figures.{merge_kind};
ghost use Rattle.rules.specs.Rows.{key_of, record_key, sound_record, adjusted_record, new_record};
ghost use Rattle.rules.specs.NamedRecord.{is_not_adjustable};
ghost use Rattle.rules.specs.Refusal.{any_of, all_of};
ghost use Rattle.rules.specs.Request as Request;
ghost use Rattle.rules.specs.Layout.{room_of, rows_of, write};
ghost use Rattle.rules.specs.Tables.{records_layout, sound_record_rows};
ghost use Rattle.rules.specs.Merge.{merge_inverses, pairs_of};
ghost use Rattle.rules.specs.Handle.{answered};
ghost use Rattle.rules.specs.Reasons.{confirmed_by};
ghost use Rattle.verdict.specs.Verdict.{accepted_on};
ghost use Rattle.merge_sources.specs.Sources.{sources_in, all_found, source_records, inverse_named};
ghost use Rattle.merge_sources.specs.Pairs.{repeats_from};
ghost use Rattle.merge_sources.specs.Located.{RowsKnown};
ghost use Rattle.merge.specs.MergeAccepted.{MergeAccepted};

use super::sources;
use merge_sources::{Source, pairs};
use requests::Held;
use rules::Record;
use rules::codes::{ADJUSTED, MERGE};
use rules::refusals::Confirmation;
use tables::{positions, records};

// Each source becomes status 1, in the row that was kept.
fn adjust_sources(records: &mut [i64], pairs: &[i64], sources: &[Source])
    requires { (sound_record_rows records.old ≡ true) × (all_found records.old pairs.now ≡ true) × (any_of (map is_not_adjustable (source_records records.old pairs.now)) ≡ false) × (any_of (repeats_from [] (pairs_of pairs.now)) ≡ false) × RowsKnown records.old pairs.now sources.now }
    ensures { (records.new ≡ write records_layout records.old (upsert_all record_key (map adjusted_record (source_records records.old pairs.now)) (rows_of records_layout records.old))) × (sound_record_rows records.new ≡ true) }
{
    for source in &sources[..pairs.len() / 2] {
        records::set_status(&mut *records, source.row as usize, ADJUSTED);
    }
}

// A source gets its inverse row, with its id's next suffix. The inverses before it have moved rows, so it is looked up anew: its row, the suffix and the place are one answer.
fn insert_inverse(records: &mut [i64], today: i64, id: i64, suffix: i64, into: i64)
    requires { (sound_record_rows records.old ≡ true) × (is_some (find record_key (key_of id suffix) (rows_of records_layout records.old)) ≡ true) × (sound_record (inverse_named today records.old (key_of id suffix) into) ≡ true) × (length (rows_of records_layout records.old) < room_of records_layout records.old) }
    ensures { (records.new ≡ write records_layout records.old (upsert record_key (inverse_named today records.old (key_of id suffix) into) (rows_of records_layout records.old))) × (sound_record_rows records.new ≡ true) }
{
    let Ok(there) = records::look_up(records, id, suffix) else {
        // Never reached: the source has its record, by the second premise.
        return;
    };
    let named = requests::record_named(records, id, suffix, there);
    let inverse = requests::inverse_record(today, named.record, named.next, MERGE, 0, 0, into);
    records::insert_record(records, there.next, inverse);
}

// Each source gets its inverse row, in list order.
fn insert_inverses(records: &mut [i64], today: i64, pairs: &[i64], into: i64)
    requires { (sound_record_rows records.old ≡ true) × (all_found records.old pairs.now ≡ true) × (all_of (map sound_record (merge_inverses today into [] (sources_in records.old pairs.now))) ≡ true) × (length (rows_of records_layout records.old) + length (pairs_of pairs.now) ≤ room_of records_layout records.old) }
    ensures { (records.new ≡ write records_layout records.old (upsert_all record_key (merge_inverses today into [] (sources_in records.old pairs.now)) (rows_of records_layout records.old))) × (sound_record_rows records.new ≡ true) }
{
    for &[id, suffix] in pairs::in_pairs(pairs) {
        insert_inverse(&mut *records, today, id, suffix, into);
    }
}

// The merged row: its account, series and side code are the first source's.
fn merged_row(today: i64, first: Record, id: i64, quantity: i64, price: i64) -> Record
    ensures { result ≡ new_record today id merge_kind first.account first.series first.side quantity price (pos 0) (pos 0) }
{
    requests::new_record(
        today,
        id,
        MERGE,
        first.account,
        first.series,
        first.side,
        quantity,
        price,
        0,
        0,
    )
}

// The merged row, where its key belongs now that the inverses are in.
fn insert_merged(records: &mut [i64], merged: Record)
    requires { (sound_record_rows records.old ≡ true) × (sound_record merged ≡ true) × (find record_key (record_key merged) (rows_of records_layout records.old) ≡ none) × (length (rows_of records_layout records.old) < room_of records_layout records.old) }
    ensures { (records.new ≡ write records_layout records.old (upsert record_key merged (rows_of records_layout records.old))) × (sound_record_rows records.new ≡ true) }
{
    let Err(absent) = records::look_up(records, merged.id, merged.suffix) else {
        // Never reached: the new id has no record, by the third premise.
        return;
    };
    records::insert_record(records, absent.place, merged);
}

pub fn book(
    records: &mut [i64],
    positions: &mut [i64],
    held: Held,
    id: i64,
    account: i64,
    series: i64,
    pairs: &[i64],
    sources: &[Source],
) -> Confirmation
    requires { MergeAccepted records.old positions.old held id account series pairs.now sources.now }
    ensures { answered (confirmed_by result) records.new positions.new ≡ accepted_on records.old positions.old (Request.merge id account series pairs.now) }
{
    let today = records::today(records);
    let first = sources::source_record(records, pairs, sources, 0);
    let quantity = sources::sum_of_quantities(records, pairs, sources);
    let value = sources::sum_of_values(records, pairs, sources);
    let price = integers::average(value, quantity);
    let residual = integers::residual(figures::is_buy(first.side), value, quantity);
    let merged = merged_row(today, first, id, quantity, price);
    let m = requests::by_residual(residual);
    let found = held.found;
    let left = requests::moved(held.position, m);
    adjust_sources(&mut *records, pairs, sources);
    insert_inverses(&mut *records, today, pairs, id);
    insert_merged(records, merged);
    positions::write_position(positions, found, left);
    let added = (pairs.len() / 2) as i64 + 1;
    Confirmation::Booked {
        rows: added,
        residual,
    }
}
