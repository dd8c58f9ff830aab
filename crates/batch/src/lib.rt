// A batch of trades on sound tables (document 02, K1): its test 3, and its trades booked one by one up to the first that is refused.
#![tactic(auto)]

ghost use Rattle.std.specs.Prelude.{◌≡◌, true, length, ◌+◌, ◌≤◌};
ghost use Rattle.rules.specs.Tables.{tables_of, sound_records, sound_positions};
ghost use Rattle.rules.specs.Left.{left, left_by};
ghost use Rattle.rules.specs.Sequence.{until_refused};
ghost use Rattle.rules.specs.Batch.{trade_at, trades_of, batch_figures, batch_answer, handle_batch};
ghost use Rattle.batch.specs.Outcome.{became};
ghost use Rattle.batch.specs.BookedSoundly.{BookedSoundly};

use rules::Reply;
use rules::layout::TRADE_WIDTH;
use rules::refusals::{self, Confirmation, Reason, Refusal};

const MOST_TRADES: usize = 1000;

// Test 3 of a batch, with so many cells for the excesses.
#[tactic(auto, unfolding(rules::specs::Batch::batch_figures))]
pub fn figures_valid(trades: &[i64], cells: usize) -> bool
    ensures { result ≡ batch_figures trades.now cells }
{
    let count = trades.len() / TRADE_WIDTH;
    trades.len() % TRADE_WIDTH == 0 && (1..=MOST_TRADES).contains(&count) && count <= cells
}

// The trade whose figures begin at this cell.
fn book_trade(
    records: &mut [i64],
    positions: &mut [i64],
    trades: &[i64],
    at: usize,
) -> Result<i64, Refusal>
    requires { (sound_records records.old ≡ true) × (sound_positions positions.old ≡ true) × (at + 6 ≤ length trades.now) }
    ensures { BookedSoundly (tables_of records.old positions.old) (trade_at trades.now at) (became result) (tables_of records.new positions.new) }
{
    let id = trades[at];
    let account = trades[at + 1];
    let series = trades[at + 2];
    let side = trades[at + 3];
    let quantity = trades[at + 4];
    let price = trades[at + 5];
    let confirmation = trade::on_sound(
        records, positions, id, account, series, side, quantity, price,
    )?;
    match confirmation {
        Confirmation::Booked { .. } => Ok(0),
        Confirmation::ClosingError { excess } => Ok(excess),
    }
}

// Every trade in turn, and its excess, up to the first that is refused.
fn book_each(
    records: &mut [i64],
    positions: &mut [i64],
    trades: &[i64],
    excess: &mut [i64],
) -> Reply
    requires { (sound_records records.old ≡ true) × (sound_positions positions.old ≡ true) × (batch_figures trades.now (length excess.old) ≡ true) }
    ensures { left result excess.new records.new positions.new ≡ left_by excess.old (batch_answer (until_refused (tables_of records.old positions.old) (trades_of trades.now))) }
{
    let count = trades.len() / TRADE_WIDTH;
    for i in 0..count {
        match book_trade(&mut *records, &mut *positions, trades, i * TRADE_WIDTH) {
            Err(refusal) => {
                let booked = i as i64;
                let number = refusals::number(refusal.reason);
                return Reply::Stopped {
                    booked,
                    number,
                    place: refusal.place,
                };
            }
            Ok(over) => excess[i] = over,
        }
    }
    let rows = count as i64;
    Reply::Booked { rows, residual: 0 }
}

pub fn on_sound(
    records: &mut [i64],
    positions: &mut [i64],
    trades: &[i64],
    excess: &mut [i64],
) -> Reply
    requires { (sound_records records.old ≡ true) × (sound_positions positions.old ≡ true) }
    ensures { left result excess.new records.new positions.new ≡ left_by excess.old (handle_batch (tables_of records.old positions.old) trades.now (length excess.old)) }
{
    if !figures_valid(trades, excess.len()) {
        return Reply::from(Reason::OutOfRange);
    }
    book_each(records, positions, trades, excess)
}
