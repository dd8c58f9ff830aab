// The end-of-day reporting list (document 02, K8): tests 1, 5 and 14, and the pairs. It reads the records table alone and changes no cell of it. The first pass over the rows finds an inverse without its
// parent and counts the pairs, so that nothing is written where the call is refused; the second writes them. A parent is found at the first look in tables that the book has made.
#![tactic(auto)]

ghost use Rattle.std.specs.Prelude.{◌+◌, ◌≤◌, ◌<◌, ◌≡◌, true, false, [], ◌∷◌, map, length};
ghost use Rattle.text.specs.Written.{written};
ghost use Rattle.rules.specs.Call as Call;
ghost use Rattle.rules.specs.Call.{handle_call};
ghost use Rattle.rules.specs.Layout.{row_at, rows_of};
ghost use Rattle.rules.specs.Left.{left, left_by, written_to};
ghost use Rattle.rules.specs.Reasons.{reply_of};
ghost use Rattle.rules.specs.Refusal.{any_of};
ghost use Rattle.rules.specs.Reportable.{lacks_parent, reportable_among, reportable_records, ids_and_suffixes};
ghost use Rattle.rules.specs.Tables.{records_layout, tables_of, sound_record_rows};
ghost use Rattle.reportable.specs.Listing.{pairs_of_row, counted_of};

use rules::Reply;
use rules::codes::{ADJUSTABLE, INVERSE, UNDER_GIVE_UP};
use rules::refusals::{Reason, Refusal};
use tables::records;

// The pairs that a row gives to the list, one or none; 5 for an inverse of the current day without its parent row.
fn pairs_of(records: &[i64], today: i64, row: usize) -> Result<usize, Reason>
    requires { (sound_record_rows records.now ≡ true) × (row < length (rows_of records_layout records.now)) }
    ensures { result ≡ pairs_of_row today (rows_of records_layout records.now) (row_at records_layout records.now row) }
{
    let r = records::read_record(records, row);
    if r.day != today {
        return Ok(0);
    }
    match r.status {
        ADJUSTABLE | UNDER_GIVE_UP => Ok(1),
        INVERSE => {
            let Ok(parent) = records::find_parent(records, row, r) else {
                return Err(Reason::NoRecord);
            };
            let p = records::read_record(records, parent);
            Ok(if p.day < today { 1 } else { 0 })
        }
        _ => Ok(0),
    }
}

// Test 5, and the number of pairs.
fn count_pairs(records: &[i64], today: i64) -> Result<usize, Reason>
    requires { sound_record_rows records.now ≡ true }
    ensures { result ≡ counted_of today (rows_of records_layout records.now) (rows_of records_layout records.now) }
{
    let mut pairs = 0;
    for row in 0..records::count(records) {
        pairs += pairs_of(records, today, row)?;
    }
    Ok(pairs)
}

// The pair of a row, if it gives one, from a cell on; the place after it.
fn write_row(records: &[i64], today: i64, row: usize, pairs: &mut [i64], at: usize) -> usize
    requires { (sound_record_rows records.now ≡ true) × (row < length (rows_of records_layout records.now)) × (lacks_parent today (rows_of records_layout records.now) (row_at records_layout records.now row) ≡ false) × (at + length (ids_and_suffixes (reportable_among today (rows_of records_layout records.now) (row_at records_layout records.now row ∷ []))) ≤ length pairs.old) }
    ensures { (result ≡ at + length (ids_and_suffixes (reportable_among today (rows_of records_layout records.now) (row_at records_layout records.now row ∷ [])))) × (pairs.new ≡ written (ids_and_suffixes (reportable_among today (rows_of records_layout records.now) (row_at records_layout records.now row ∷ []))) at pairs.old) }
{
    if pairs_of(records, today, row) != Ok(1) {
        return at;
    }
    let r = records::read_record(records, row);
    pairs[at] = r.id;
    pairs[at + 1] = r.suffix;
    at + 2
}

// The pairs, in table order.
fn write_pairs(records: &[i64], today: i64, pairs: &mut [i64])
    requires { (sound_record_rows records.now ≡ true) × (any_of (map (lacks_parent today (rows_of records_layout records.now)) (rows_of records_layout records.now)) ≡ false) × (length (ids_and_suffixes (reportable_records today (rows_of records_layout records.now))) ≤ length pairs.old) }
    ensures { pairs.new ≡ written_to pairs.old (ids_and_suffixes (reportable_records today (rows_of records_layout records.now))) }
{
    let mut at = 0;
    for row in 0..records::count(records) {
        at = write_row(records, today, row, &mut *pairs, at);
    }
}

// Tests 1, 5 and 14 in their order, then the pairs.
fn answer(records: &[i64], pairs: &mut [i64]) -> Result<Reply, Refusal>
    ensures { left (reply_of result) pairs.new records.now [] ≡ left_by pairs.old (handle_call (tables_of records.now []) (Call.reportable (length pairs.old))) }
{
    if !scan::soundness::records_sound(records) {
        return Err(Reason::RecordsUnsound.into());
    }
    let today = records::today(records);
    let count = count_pairs(records, today)?;
    if pairs.len() < 2 * count {
        return Err(Reason::NoRoom.into());
    }
    write_pairs(records, today, pairs);
    Ok(Reply::Listed(count as i64))
}

pub fn reportable(records: &[i64], pairs: &mut [i64]) -> Reply
    ensures { left result pairs.new records.now [] ≡ left_by pairs.old (handle_call (tables_of records.now []) (Call.reportable (length pairs.old))) }
{
    rules::refusals::reply(answer(records, pairs))
}
