// The lines of a batch's trades, six figures each: id, account, series, side code, quantity, price.
ghost use Rattle.std.specs.Prelude.{◌+◌, ◌*◌, ◌≤◌, ◌≡◌, ◌&&◌, length};
ghost use mathlib.Core.List.{map, flat_map};
ghost use Rattle.text.specs.Written.{written};
ghost use Rattle.rules.specs.Refusal.{all_of};
ghost use Rattle.rules.specs.Line.{line_of, passes_test3};
ghost use Rattle.rules.specs.Reasons.{reply_of};
ghost use Rattle.rules.specs.Batch.{trade_at, trade_count, trades_of, batch_figures};
ghost use Rattle.rules.specs.Writing.{text_left, write_trades};

use rules::layout::TRADE_WIDTH;
use rules::refusals::{self, Reason, Refusal};
use rules::{Heading, Reply};

// Test 3 of one trade.
fn trade_valid(trade: &[i64]) -> bool
    requires { length trade.now ≡ 6 }
    ensures { result ≡ passes_test3 (trade_at trade.now 0) }
{
    let &[id, account, series, side, quantity, price] = trade else {
        unreachable!()
    };
    trade::figures_valid(id, account, series, side, quantity, price)
}

fn each_valid(trades: &[i64]) -> bool
    ensures { result ≡ all_of (map passes_test3 (trades_of trades.now)) }
{
    for trade in trades.chunks_exact(TRADE_WIDTH) {
        if !trade_valid(trade) {
            return false;
        }
    }
    true
}

// Test 3 of the batch: 1 to 1,000 trades, each of which passes it.
fn trades_valid(trades: &[i64]) -> bool
    ensures { result ≡ (batch_figures trades.now (trade_count trades.now) && all_of (map passes_test3 (trades_of trades.now))) }
{
    batch::figures_valid(trades, trades.len() / TRADE_WIDTH) && each_valid(trades)
}

// How many bytes the lines take.
fn trades_width(trades: &[i64]) -> usize
    requires { trade_count trades.now ≤ 1000 }
    ensures { (result ≡ length (flat_map line_of (trades_of trades.now))) × (result ≤ 136 * trade_count trades.now) }
{
    let mut width = 0;
    for trade in trades.chunks_exact(TRADE_WIDTH) {
        width += writer::line::line_width(Heading::Trade, trade, &[]);
    }
    width
}

// Answers the place after the last line.
fn write_each(text: &mut [u8], trades: &[i64]) -> usize
    requires { (trade_count trades.now ≤ 1000) × (length (flat_map line_of (trades_of trades.now)) ≤ length text.old) }
    ensures { (result ≡ length (flat_map line_of (trades_of trades.now))) × (text.new ≡ written (flat_map line_of (trades_of trades.now)) 0 text.old) }
{
    let mut next = 0;
    for trade in trades.chunks_exact(TRADE_WIDTH) {
        next = writer::line::write_line(&mut *text, next, Heading::Trade, trade, &[]);
    }
    next
}

fn write_tested(text: &mut [u8], trades: &[i64]) -> Result<Reply, Refusal>
    ensures { text_left (reply_of result) text.new ≡ write_trades trades.now text.old }
{
    if !trades_valid(trades) {
        return Err(Refusal::from(Reason::OutOfRange));
    }
    let width = trades_width(trades);
    if text.len() < width {
        return Err(Refusal::from(Reason::NoRoom));
    }
    let end = write_each(text, trades);
    Ok(Reply::Written(end as i64))
}

// A line for each trade.
pub fn write_trades(text: &mut [u8], trades: &[i64]) -> Reply
    ensures { text_left result text.new ≡ write_trades trades.now text.old }
{
    refusals::reply(write_tested(text, trades))
}
