// Lineage: tests 1, 3 and 5, and the way from parent to parent. It reads the records table alone, and never writes.
#![tactic(auto)]

ghost use Rattle.std.specs.Prelude.{◌≡◌, true, []};
ghost use Rattle.rules.specs.Figures.{valid_suffix};
ghost use Rattle.rules.specs.Reasons.{reply_of};
ghost use Rattle.rules.specs.Request as Request;
ghost use Rattle.rules.specs.Tables.{sound_record_rows, tables_of};
ghost use Rattle.rules.specs.Handle.{handle};
ghost use Rattle.lineage.specs.Origin.{origin_found, origin_told};

use rules::Reply;
use rules::refusals::{Reason, Refusal};
use tables::records;

// The original of a record: the price of the row with suffix 0, and the links followed to it.
#[derive(Clone, Copy)]
struct Original {
    price: i64,
    links: i64,
}

// From a suffix to its parent, which is below it, until suffix 0; none where a row on the way is missing.
fn origin(records: &[i64], id: i64, suffix: i64) -> Option<Original>
    requires { (sound_record_rows records.now ≡ true) × (valid_suffix suffix ≡ true) }
    ensures { origin_told result ≡ origin_found records.now id suffix }
{
    let Ok(there) = records::look_up(records, id, suffix) else {
        return None;
    };
    let r = records::read_record(records, there.row);
    if suffix == 0 {
        return Some(Original {
            price: r.price,
            links: 0,
        });
    }
    let original = origin(records, id, r.parent)?;
    Some(Original {
        links: original.links + 1,
        ..original
    })
}

// Tests 1, 3 and 5 in their order, then the original.
fn answer(records: &[i64], id: i64, suffix: i64) -> Result<Reply, Refusal>
    ensures { reply_of result ≡ (handle (tables_of records.now []) (Request.lineage id suffix)).reply }
{
    if !scan::soundness::records_sound(records) {
        return Err(Reason::RecordsUnsound.into());
    }
    if !figures::valid_id(id) || !figures::valid_suffix(suffix) {
        return Err(Reason::OutOfRange.into());
    }
    let Original { price, links } = origin(records, id, suffix).ok_or(Reason::NoRecord)?;
    Ok(Reply::Lineage { price, links })
}

pub fn lineage(records: &[i64], id: i64, suffix: i64) -> Reply
    ensures { result ≡ (handle (tables_of records.now []) (Request.lineage id suffix)).reply }
{
    rules::refusals::reply(answer(records, id, suffix))
}
