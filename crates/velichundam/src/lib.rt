// The C interface of the transaction book, and nothing else: include/velichundam.h says it to a host.
// A slice is passed as a pointer and a length. Each promise is the promise of the call behind it: the four numbers that are returned, and the cells
// of the lent tables at the end, are those of `handle` on the cells at entry and this request, its answer coded by `code_of`.
#![tactic(auto)]

ghost use Rattle.std.specs.Prelude.{◌≡◌, [], length};
ghost use Rattle.rules.specs.Reply.{code_of};
ghost use Rattle.rules.specs.Request as Request;
ghost use Rattle.rules.specs.Call as Call;
ghost use Rattle.rules.specs.Call.{handle_call};
ghost use Rattle.rules.specs.Left.{left_by};
ghost use Rattle.rules.specs.Handle.{handle};
ghost use Rattle.rules.specs.Tables.{tables_of, all_tables};
ghost use Rattle.rules.specs.declared.Step.TheVariants.{Open, Claim, Cancel, Refuse, ApproveGiver, ApproveTaker};
ghost use Rattle.velichundam.specs.HandedBack.{in_numbers, code_from, handed_back, handed_back_all, in_numbers_with, handed_back_with};

use rules::{Reply, Step};

pub mod text_calls; // the writing calls and the replay

// An answer as C reads it: which it is, and what it carries.
#[repr(C)]
#[derive(Clone, Copy)]
pub struct Coded {
    pub kind: i64,
    pub first: i64,
    pub second: i64,
    pub third: i64,
}

impl From<Reply> for Coded {
    ghost from_gives = { λ r c. code_from c.kind c.first c.second c.third ≡ code_of r };

    fn from(r: Reply) -> Coded {
        match r {
            Reply::Booked { rows, residual } => Coded {
                kind: 0,
                first: rows,
                second: residual,
                third: 0,
            },
            Reply::ClosingError { excess } => Coded {
                kind: 1,
                first: excess,
                second: 0,
                third: 0,
            },
            Reply::Lineage { price, links } => Coded {
                kind: 2,
                first: price,
                second: links,
                third: 0,
            },
            Reply::Refused(number, place) => Coded {
                kind: 3,
                first: number,
                second: place,
                third: 0,
            },
            Reply::Stopped {
                booked,
                number,
                place,
            } => Coded {
                kind: 4,
                first: booked,
                second: number,
                third: place,
            },
            Reply::Written(bytes) => Coded {
                kind: 5,
                first: bytes,
                second: 0,
                third: 0,
            },
            Reply::Replayed(lines) => Coded {
                kind: 6,
                first: lines,
                second: 0,
                third: 0,
            },
            Reply::BadLine(line) => Coded {
                kind: 7,
                first: line,
                second: 0,
                third: 0,
            },
            Reply::LineRefused(line, number, place) => Coded {
                kind: 8,
                first: line,
                second: number,
                third: place,
            },
            Reply::Listed(records) => Coded {
                kind: 9,
                first: records,
                second: 0,
                third: 0,
            },
        }
    }
}

#[unsafe(no_mangle)]
pub extern "C" fn velichundam_trade(
    records: &mut [i64],
    positions: &mut [i64],
    id: i64,
    account: i64,
    series: i64,
    side: i64,
    quantity: i64,
    price: i64,
) -> Coded
    ensures { handed_back result.kind result.first result.second result.third records.new positions.new ≡ in_numbers (handle (tables_of records.old positions.old) (Request.trade id account series side quantity price)) }
{
    Coded::from(book::trade(
        records, positions, id, account, series, side, quantity, price,
    ))
}

// The excesses are lent as an output: every cell of it is given too.
#[unsafe(no_mangle)]
pub extern "C" fn velichundam_trades(
    records: &mut [i64],
    positions: &mut [i64],
    trades: &[i64],
    excess: &mut [i64],
) -> Coded
    ensures { handed_back_with result.kind result.first result.second result.third excess.new records.new positions.new ≡ in_numbers_with (left_by excess.old (handle_call (tables_of records.old positions.old) (Call.trades trades.now (length excess.old)))) }
{
    Coded::from(book::trades(records, positions, trades, excess))
}

#[unsafe(no_mangle)]
pub extern "C" fn velichundam_separate(
    records: &mut [i64],
    positions: &mut [i64],
    id: i64,
    suffix: i64,
    account: i64,
    series: i64,
    parts: &[i64],
) -> Coded
    ensures { handed_back result.kind result.first result.second result.third records.new positions.new ≡ in_numbers (handle (tables_of records.old positions.old) (Request.separate id suffix account series parts.now)) }
{
    Coded::from(book::separate(records, positions, id, suffix, account, series, parts))
}

#[unsafe(no_mangle)]
pub extern "C" fn velichundam_transfer(
    records: &mut [i64],
    positions: &mut [i64],
    id: i64,
    suffix: i64,
    from: i64,
    to: i64,
    series: i64,
) -> Coded
    ensures { handed_back result.kind result.first result.second result.third records.new positions.new ≡ in_numbers (handle (tables_of records.old positions.old) (Request.transfer id suffix from to series)) }
{
    Coded::from(book::transfer(records, positions, id, suffix, from, to, series))
}

#[unsafe(no_mangle)]
pub extern "C" fn velichundam_merge(
    records: &mut [i64],
    positions: &mut [i64],
    id: i64,
    account: i64,
    series: i64,
    pairs: &[i64],
) -> Coded
    ensures { handed_back result.kind result.first result.second result.third records.new positions.new ≡ in_numbers (handle (tables_of records.old positions.old) (Request.merge id account series pairs.now)) }
{
    Coded::from(book::merge(records, positions, id, account, series, pairs))
}

// The records table is lent to be read, so its cells stay as they were.
#[unsafe(no_mangle)]
pub extern "C" fn velichundam_lineage(records: &[i64], id: i64, suffix: i64) -> Coded
    ensures { code_from result.kind result.first result.second result.third ≡ code_of (handle (tables_of records.now []) (Request.lineage id suffix)).reply }
{
    Coded::from(book::lineage(records, id, suffix))
}

// A new day; it is lent the records alone.
#[unsafe(no_mangle)]
pub extern "C" fn velichundam_day(records: &mut [i64], day: i64) -> Coded
    ensures { handed_back result.kind result.first result.second result.third records.new [] ≡ in_numbers (handle (tables_of records.old []) (Request.new_day day)) }
{
    Coded::from(book::day(records, day))
}

// The end-of-day reporting list.
#[unsafe(no_mangle)]
pub extern "C" fn velichundam_reportable(records: &[i64], pairs: &mut [i64]) -> Coded
    ensures { handed_back_with result.kind result.first result.second result.third pairs.new records.now [] ≡ in_numbers_with (left_by pairs.old (handle_call (tables_of records.now []) (Call.reportable (length pairs.old)))) }
{
    Coded::from(book::reportable(records, pairs))
}

// The steps of a give-up. They alone are lent the process table.
#[unsafe(no_mangle)]
pub extern "C" fn velichundam_give_up_open(
    records: &mut [i64],
    positions: &mut [i64],
    processes: &mut [i64],
    process: i64,
    id: i64,
    suffix: i64,
    giving: i64,
    taking: i64,
    series: i64,
) -> Coded
    ensures { handed_back_all result.kind result.first result.second result.third records.new positions.new processes.new ≡ in_numbers (handle (all_tables records.old positions.old processes.old) (Request.give_up Open process id suffix giving taking series)) }
{
    Coded::from(book::give_up(
        records,
        positions,
        processes,
        Step::Open,
        process,
        id,
        suffix,
        giving,
        taking,
        series,
    ))
}

#[unsafe(no_mangle)]
pub extern "C" fn velichundam_give_up_claim(
    records: &mut [i64],
    positions: &mut [i64],
    processes: &mut [i64],
    process: i64,
    id: i64,
    suffix: i64,
    giving: i64,
    taking: i64,
    series: i64,
) -> Coded
    ensures { handed_back_all result.kind result.first result.second result.third records.new positions.new processes.new ≡ in_numbers (handle (all_tables records.old positions.old processes.old) (Request.give_up Claim process id suffix giving taking series)) }
{
    Coded::from(book::give_up(
        records,
        positions,
        processes,
        Step::Claim,
        process,
        id,
        suffix,
        giving,
        taking,
        series,
    ))
}

#[unsafe(no_mangle)]
pub extern "C" fn velichundam_give_up_cancel(
    records: &mut [i64],
    positions: &mut [i64],
    processes: &mut [i64],
    process: i64,
    id: i64,
    suffix: i64,
    giving: i64,
    taking: i64,
    series: i64,
) -> Coded
    ensures { handed_back_all result.kind result.first result.second result.third records.new positions.new processes.new ≡ in_numbers (handle (all_tables records.old positions.old processes.old) (Request.give_up Cancel process id suffix giving taking series)) }
{
    Coded::from(book::give_up(
        records,
        positions,
        processes,
        Step::Cancel,
        process,
        id,
        suffix,
        giving,
        taking,
        series,
    ))
}

#[unsafe(no_mangle)]
pub extern "C" fn velichundam_give_up_refuse(
    records: &mut [i64],
    positions: &mut [i64],
    processes: &mut [i64],
    process: i64,
    id: i64,
    suffix: i64,
    giving: i64,
    taking: i64,
    series: i64,
) -> Coded
    ensures { handed_back_all result.kind result.first result.second result.third records.new positions.new processes.new ≡ in_numbers (handle (all_tables records.old positions.old processes.old) (Request.give_up Refuse process id suffix giving taking series)) }
{
    Coded::from(book::give_up(
        records,
        positions,
        processes,
        Step::Refuse,
        process,
        id,
        suffix,
        giving,
        taking,
        series,
    ))
}

#[unsafe(no_mangle)]
pub extern "C" fn velichundam_give_up_approve_giver(
    records: &mut [i64],
    positions: &mut [i64],
    processes: &mut [i64],
    process: i64,
    id: i64,
    suffix: i64,
    giving: i64,
    taking: i64,
    series: i64,
) -> Coded
    ensures { handed_back_all result.kind result.first result.second result.third records.new positions.new processes.new ≡ in_numbers (handle (all_tables records.old positions.old processes.old) (Request.give_up ApproveGiver process id suffix giving taking series)) }
{
    Coded::from(book::give_up(
        records,
        positions,
        processes,
        Step::ApproveGiver,
        process,
        id,
        suffix,
        giving,
        taking,
        series,
    ))
}

#[unsafe(no_mangle)]
pub extern "C" fn velichundam_give_up_approve_taker(
    records: &mut [i64],
    positions: &mut [i64],
    processes: &mut [i64],
    process: i64,
    id: i64,
    suffix: i64,
    giving: i64,
    taking: i64,
    series: i64,
) -> Coded
    ensures { handed_back_all result.kind result.first result.second result.third records.new positions.new processes.new ≡ in_numbers (handle (all_tables records.old positions.old processes.old) (Request.give_up ApproveTaker process id suffix giving taking series)) }
{
    Coded::from(book::give_up(
        records,
        positions,
        processes,
        Step::ApproveTaker,
        process,
        id,
        suffix,
        giving,
        taking,
        series,
    ))
}
