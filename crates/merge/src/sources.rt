// The sources of a merge in the records table, which is sound.
ghost use Rattle.std.specs.Prelude.{◌≡◌, true, false, [], map, Bool, ◌+◌, ◌*◌, ◌≤◌, ◌<◌, pos, length, ◌≤ℤ◌};
ghost use Rattle.std.proofs.Math.Option.{some};
ghost use Rattle.rules.specs.Figures.{most_quantity};
ghost use Rattle.rules.specs.Keyed.{find};
ghost use Rattle.rules.specs.Rows.{record_key};
ghost use Rattle.rules.specs.NamedRecord.{is_not_adjustable};
ghost use Rattle.rules.specs.Refusal.{any_of};
ghost use Rattle.rules.specs.Plan.{suffix_is_above};
ghost use Rattle.rules.specs.Layout.{rows_of};
ghost use Rattle.rules.specs.Tables.{records_layout, sound_record_rows};
ghost use Rattle.rules.specs.Merge.{is_missing, sum_of_quantities, sum_of_values, merge_inverses};
ghost use Rattle.rules.specs.declared.Record.{Record};
ghost use Rattle.merge_sources.specs.Sources.{Nowhere, told, sources_in, place_of, IsTest, all_found, source_records};
ghost use Rattle.merge_sources.specs.Pairs.{pair_at};
ghost use Rattle.merge_sources.specs.Located.{RowsKnown, SuffixesKnown};

use merge_sources::{Source, pairs};
use rules::Record;
use rules::codes::GREATEST_SUFFIX;
use tables::records;

// 5: the first source that has no record. Where there is none, the row of each is kept, and the greatest suffix of its id.
pub fn locate(records: &[i64], pairs: &[i64], sources: &mut [Source]) -> Option<usize>
    requires { (sound_record_rows records.now ≡ true) × (length pairs.now ≤ 2 * length sources.old) }
    ensures { (told result ≡ place_of (map is_missing (sources_in records.now pairs.now))) × (told result ≡ Nowhere → RowsKnown records.now pairs.now sources.new × SuffixesKnown records.now pairs.now sources.new) }
{
    for (i, &[id, suffix]) in pairs::in_pairs(pairs).iter().enumerate() {
        let Ok(there) = records::look_up(records, id, suffix) else {
            return Some(i);
        };
        sources[i] = Source {
            row: there.row as u16,
            suffix: there.greatest as u16,
        };
    }
    None
}

// The record of the source at a place, by its row. The loops below go by the place, which the list of pairs and what is kept of the sources have in common.
pub fn source_record(records: &[i64], pairs: &[i64], sources: &[Source], place: usize) -> Record
    requires { (sound_record_rows records.now ≡ true) × RowsKnown records.now pairs.now sources.now × (2 * place + 2 ≤ length pairs.now) }
    ensures { find record_key (pair_at pairs.now place) (rows_of records_layout records.now) ≡ some result }
{
    records::read_record(records, sources[place].row as usize)
}

// The first source whose record fails a test.
pub fn first_failing<F: Fn(Record) -> bool>(
    records: &[i64],
    pairs: &[i64],
    sources: &[Source],
    fails: F,
) -> Option<usize>
    requires { (sound_record_rows records.now ≡ true) × RowsKnown records.now pairs.now sources.now × F.IsAlwaysCallable fails }
    ensures { (test : Record → Bool) → IsTest (F.post fails) test → told result ≡ place_of (map test (source_records records.now pairs.now)) }
{
    for i in 0..pairs.len() / 2 {
        if fails(source_record(records, pairs, sources, i)) {
            return Some(i);
        }
    }
    None
}

// Q.
pub fn sum_of_quantities(records: &[i64], pairs: &[i64], sources: &[Source]) -> i64
    requires { (sound_record_rows records.now ≡ true) × RowsKnown records.now pairs.now sources.now × (all_found records.now pairs.now ≡ true) × (length pairs.now ≤ 2000) }
    ensures { result ≡ sum_of_quantities (source_records records.now pairs.now) }
{
    let mut sum = 0;
    for i in 0..pairs.len() / 2 {
        sum += source_record(records, pairs, sources, i).quantity;
    }
    sum
}

// V, once Q is known to be at most 1,000,000 and every quantity to be positive.
pub fn sum_of_values(records: &[i64], pairs: &[i64], sources: &[Source]) -> i64
    requires { (sound_record_rows records.now ≡ true) × RowsKnown records.now pairs.now sources.now × (all_found records.now pairs.now ≡ true) × (length pairs.now ≤ 2000) × (any_of (map is_not_adjustable (source_records records.now pairs.now)) ≡ false) × (sum_of_quantities (source_records records.now pairs.now) ≤ℤ pos most_quantity) }
    ensures { result ≡ sum_of_values (source_records records.now pairs.now) }
{
    let mut sum = 0;
    for i in 0..pairs.len() / 2 {
        let r = source_record(records, pairs, sources, i);
        sum += r.quantity * r.price;
    }
    sum
}

// 13: whether an inverse would need a suffix above 65,535.
pub fn suffix_above(records: &[i64], pairs: &[i64], sources: &[Source]) -> bool
    requires { (sound_record_rows records.now ≡ true) × (length pairs.now ≤ 2000) × SuffixesKnown records.now pairs.now sources.now }
    ensures { result ≡ any_of (map suffix_is_above (merge_inverses (pos 0) (pos 0) [] (sources_in records.now pairs.now))) }
{
    for i in 0..pairs.len() / 2 {
        let next = sources[i].suffix as i64 + 1;
        if GREATEST_SUFFIX < next + pairs::times_earlier(pairs, i) {
            return true;
        }
    }
    false
}
