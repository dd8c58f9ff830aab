// A new day (document 02, K8): tests 1 and 3, and the cell of the header that has the current day. Test 1 reads the rows; no row is changed, and no other table is lent.
#![tactic(auto)]

ghost use Rattle.std.specs.Prelude.{◌≡◌, true, []};
ghost use Rattle.rules.specs.Handle.{handle, answered};
ghost use Rattle.rules.specs.Reasons.{answer_of};
ghost use Rattle.rules.specs.Request as Request;
ghost use Rattle.rules.specs.Tables.{tables_of, sound_records};
ghost use Rattle.new_day.specs.DayHandled.{DayHandled};

use rules::Reply;
use rules::layout::DAY_CELL;
use rules::refusals::{Confirmation, Reason, Refusal};

// "the same or an earlier day, or one outside 1 to 99,999, is refused 3"
#[tactic(auto, using(crate::proofs::DayMoved::headed))]
pub fn on_sound(records: &mut [i64], day: i64) -> Result<Confirmation, Refusal>
    requires { sound_records records.old ≡ true }
    ensures { DayHandled records.old day (answer_of result) records.new }
{
    let today = records[DAY_CELL];
    if !figures::valid_day(day) || day <= today {
        return Err(Reason::OutOfRange.into());
    }
    records[DAY_CELL] = day;
    Ok(Confirmation::Booked {
        rows: 0,
        residual: 0,
    })
}

pub fn day(records: &mut [i64], day: i64) -> Reply
    ensures { answered result records.new [] ≡ handle (tables_of records.old []) (Request.new_day day) }
{
    let outcome = if scan::soundness::records_sound(records) {
        on_sound(records, day)
    } else {
        Err(Reason::RecordsUnsound.into())
    };
    rules::refusals::answer(outcome)
}
