// The transaction book: the four requests and the one question of document 01, a batch of trades, the steps of a give-up, the replay of a text, a new day and the reporting list, each on lent tables of any length and content and
// with any figures. Each promise is one equation: the answer and the cells of the lent tables at the end are those of `handle` on the cells at entry and this request, of a batch, a replay and the list those of `handle_call`. A
// batch and the list also write to a lent output; their promises give every cell of it. The process table is lent to the steps of a give-up and to a replay alone.
#![tactic(auto)]

ghost use Rattle.std.specs.Prelude.{◌≡◌, [], length};
ghost use Rattle.rules.specs.Request as Request;
ghost use Rattle.rules.specs.Call as Call;
ghost use Rattle.rules.specs.Call.{handle_call};
ghost use Rattle.rules.specs.Handle.{handle, answered, answered_by};
ghost use Rattle.rules.specs.Left.{left, left_by};
ghost use Rattle.rules.specs.Tables.{tables_of, all_tables};
ghost use Rattle.verdict.specs.Verdict.{judged, verdict_on_tables};
ghost use Rattle.give_up_steps.specs.OnAllTables.{verdict_on_all_tables};

use give_up_steps::Terms;
use rules::refusals::{Reason, answer};
use rules::{Reply, Step};

// Tests 1 and 2: accepted where both tables are sound.
fn verdict_on_tables(records: &[i64], positions: &[i64]) -> Result<(), Reason>
    ensures { judged result ≡ verdict_on_tables records.now positions.now }
{
    if !scan::soundness::records_sound(records) {
        return Err(Reason::RecordsUnsound);
    }
    if !scan::soundness::positions_sound(positions) {
        return Err(Reason::PositionsUnsound);
    }
    Ok(())
}

pub fn trade(
    records: &mut [i64],
    positions: &mut [i64],
    id: i64,
    account: i64,
    series: i64,
    side: i64,
    quantity: i64,
    price: i64,
) -> Reply
    ensures { answered result records.new positions.new ≡ handle (tables_of records.old positions.old) (Request.trade id account series side quantity price) }
{
    match verdict_on_tables(records, positions) {
        Err(reason) => Reply::from(reason),
        Ok(()) => answer(trade::on_sound(
            records, positions, id, account, series, side, quantity, price,
        )),
    }
}

// Six figures each: id, account, series, side code, quantity, price; and a cell for each trade's excess.
pub fn trades(
    records: &mut [i64],
    positions: &mut [i64],
    trades: &[i64],
    excess: &mut [i64],
) -> Reply
    ensures { left result excess.new records.new positions.new ≡ left_by excess.old (handle_call (tables_of records.old positions.old) (Call.trades trades.now (length excess.old))) }
{
    match verdict_on_tables(records, positions) {
        Err(reason) => Reply::from(reason),
        Ok(()) => batch::on_sound(records, positions, trades, excess),
    }
}

pub fn separate(
    records: &mut [i64],
    positions: &mut [i64],
    id: i64,
    suffix: i64,
    account: i64,
    series: i64,
    parts: &[i64],
) -> Reply
    ensures { answered result records.new positions.new ≡ handle (tables_of records.old positions.old) (Request.separate id suffix account series parts.now) }
{
    match verdict_on_tables(records, positions) {
        Err(reason) => Reply::from(reason),
        Ok(()) => answer(separation::on_sound(
            records, positions, id, suffix, account, series, parts,
        )),
    }
}

pub fn transfer(
    records: &mut [i64],
    positions: &mut [i64],
    id: i64,
    suffix: i64,
    from: i64,
    to: i64,
    series: i64,
) -> Reply
    ensures { answered result records.new positions.new ≡ handle (tables_of records.old positions.old) (Request.transfer id suffix from to series) }
{
    match verdict_on_tables(records, positions) {
        Err(reason) => Reply::from(reason),
        Ok(()) => answer(transfer::on_sound(records, positions, id, suffix, from, to, series)),
    }
}

pub fn merge(
    records: &mut [i64],
    positions: &mut [i64],
    id: i64,
    account: i64,
    series: i64,
    pairs: &[i64],
) -> Reply
    ensures { answered result records.new positions.new ≡ handle (tables_of records.old positions.old) (Request.merge id account series pairs.now) }
{
    match verdict_on_tables(records, positions) {
        Err(reason) => Reply::from(reason),
        Ok(()) => answer(merge::call::on_sound(records, positions, id, account, series, pairs)),
    }
}

pub fn lineage(records: &[i64], id: i64, suffix: i64) -> Reply
    ensures { result ≡ (handle (tables_of records.now []) (Request.lineage id suffix)).reply }
{
    lineage::lineage(records, id, suffix)
}

// A new day (document 02, K8): it is lent the records alone.
pub fn day(records: &mut [i64], day: i64) -> Reply
    ensures { answered result records.new [] ≡ handle (tables_of records.old []) (Request.new_day day) }
{
    new_day::day(records, day)
}

// The end-of-day reporting list: the pairs, id and suffix, from the first cell on.
pub fn reportable(records: &[i64], pairs: &mut [i64]) -> Reply
    ensures { left result pairs.new records.now [] ≡ left_by pairs.old (handle_call (tables_of records.now []) (Call.reportable (length pairs.old))) }
{
    reportable::reportable(records, pairs)
}

// Tests 1, 2 and 19: accepted where all three tables are sound.
fn verdict_on_all_tables(
    records: &[i64],
    positions: &[i64],
    processes: &[i64],
) -> Result<(), Reason>
    ensures { judged result ≡ verdict_on_all_tables records.now positions.now processes.now }
{
    verdict_on_tables(records, positions)?;
    if scan::soundness::processes_sound(processes) {
        Ok(())
    } else {
        Err(Reason::ProcessesUnsound)
    }
}

// A step of a give-up: it names process, transaction, both accounts and series.
pub fn give_up(
    records: &mut [i64],
    positions: &mut [i64],
    processes: &mut [i64],
    step: Step,
    process: i64,
    id: i64,
    suffix: i64,
    giving: i64,
    taking: i64,
    series: i64,
) -> Reply
    ensures { answered_by result (all_tables records.new positions.new processes.new) ≡ handle (all_tables records.old positions.old processes.old) (Request.give_up step process id suffix giving taking series) }
{
    match verdict_on_all_tables(records, positions, processes) {
        Err(reason) => Reply::from(reason),
        Ok(()) => {
            let g = Terms {
                process,
                id,
                suffix,
                giving,
                taking,
                series,
            };
            answer(give_up::on_sound(records, positions, processes, step, g))
        }
    }
}

// The lines of a text, one by one, up to the first that is bad or refused (document 02, K5).
pub fn replay(
    records: &mut [i64],
    positions: &mut [i64],
    processes: &mut [i64],
    text: &[u8],
) -> Reply
    ensures { answered_by result (all_tables records.new positions.new processes.new) ≡ handle_call (all_tables records.old positions.old processes.old) (Call.replay text.now) }
{
    let records_sound = scan::soundness::records_sound(records);
    if !records_sound {
        return replaying::each_line::on_unsound_records(text);
    }
    let positions_sound = scan::soundness::positions_sound(positions);
    let processes_sound = scan::soundness::processes_sound(processes);
    replaying::each_line::on_sound_records(
        records,
        positions,
        processes,
        positions_sound,
        processes_sound,
        text,
    )
}
