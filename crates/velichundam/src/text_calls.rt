// The journal for C (document 02, K5): the writing calls, each with its promise, the four numbers and every byte of the lent buffer; and the replay of a text.
ghost use Rattle.std.specs.Prelude.{◌≡◌};
ghost use Rattle.rules.specs.Request as Request;
ghost use Rattle.rules.specs.Call as Call;
ghost use Rattle.rules.specs.Call.{handle_call};
ghost use Rattle.rules.specs.Tables.{all_tables};
ghost use Rattle.rules.specs.Writing.{write_request, write_trades, write_give_up};
ghost use Rattle.velichundam.specs.HandedBack.{in_numbers, handed_back_all, in_numbers_text, handed_back_text};

use crate::Coded;

#[unsafe(no_mangle)]
pub extern "C" fn velichundam_write_trade(
    text: &mut [u8],
    id: i64,
    account: i64,
    series: i64,
    side: i64,
    quantity: i64,
    price: i64,
) -> Coded
    ensures { handed_back_text result.kind result.first result.second result.third text.new ≡ in_numbers_text (write_request (Request.trade id account series side quantity price) text.old) }
{
    Coded::from(journal_writing::line::write_trade(
        text, id, account, series, side, quantity, price,
    ))
}

// A line for each trade.
#[unsafe(no_mangle)]
pub extern "C" fn velichundam_write_trades(text: &mut [u8], trades: &[i64]) -> Coded
    ensures { handed_back_text result.kind result.first result.second result.third text.new ≡ in_numbers_text (write_trades trades.now text.old) }
{
    Coded::from(journal_writing::trades::write_trades(text, trades))
}

#[unsafe(no_mangle)]
pub extern "C" fn velichundam_write_separation(
    text: &mut [u8],
    id: i64,
    suffix: i64,
    account: i64,
    series: i64,
    parts: &[i64],
) -> Coded
    ensures { handed_back_text result.kind result.first result.second result.third text.new ≡ in_numbers_text (write_request (Request.separate id suffix account series parts.now) text.old) }
{
    Coded::from(journal_writing::line::write_separation(text, id, suffix, account, series, parts))
}

#[unsafe(no_mangle)]
pub extern "C" fn velichundam_write_transfer(
    text: &mut [u8],
    id: i64,
    suffix: i64,
    from: i64,
    to: i64,
    series: i64,
) -> Coded
    ensures { handed_back_text result.kind result.first result.second result.third text.new ≡ in_numbers_text (write_request (Request.transfer id suffix from to series) text.old) }
{
    Coded::from(journal_writing::line::write_transfer(text, id, suffix, from, to, series))
}

#[unsafe(no_mangle)]
pub extern "C" fn velichundam_write_day(text: &mut [u8], day: i64) -> Coded
    ensures { handed_back_text result.kind result.first result.second result.third text.new ≡ in_numbers_text (write_request (Request.new_day day) text.old) }
{
    Coded::from(journal_writing::line::write_day(text, day))
}

#[unsafe(no_mangle)]
pub extern "C" fn velichundam_write_merge(
    text: &mut [u8],
    id: i64,
    account: i64,
    series: i64,
    pairs: &[i64],
) -> Coded
    ensures { handed_back_text result.kind result.first result.second result.third text.new ≡ in_numbers_text (write_request (Request.merge id account series pairs.now) text.old) }
{
    Coded::from(journal_writing::line::write_merge(text, id, account, series, pairs))
}

// The step's letter as its number.
#[unsafe(no_mangle)]
pub extern "C" fn velichundam_write_give_up(
    text: &mut [u8],
    step: i64,
    process: i64,
    id: i64,
    suffix: i64,
    giving: i64,
    taking: i64,
    series: i64,
) -> Coded
    ensures { handed_back_text result.kind result.first result.second result.third text.new ≡ in_numbers_text (write_give_up step process id suffix giving taking series text.old) }
{
    Coded::from(journal_writing::line::write_give_up(
        text, step, process, id, suffix, giving, taking, series,
    ))
}

#[unsafe(no_mangle)]
pub extern "C" fn velichundam_replay(
    records: &mut [i64],
    positions: &mut [i64],
    processes: &mut [i64],
    text: &[u8],
) -> Coded
    ensures { handed_back_all result.kind result.first result.second result.third records.new positions.new processes.new ≡ in_numbers (handle_call (all_tables records.old positions.old processes.old) (Call.replay text.now)) }
{
    Coded::from(book::replay(records, positions, processes, text))
}
