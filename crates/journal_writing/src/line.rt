// The writing call of each kind of request.
#![tactic(auto, unfolding(rules::specs::Writing::write_request, rules::specs::Writing::write_give_up, rules::specs::Line::line_of, rules::specs::Line::passes_test3))]

ghost use Rattle.std.specs.Prelude.{◌≤◌, ◌≡◌, true, ◌++◌, length, Option, Some, None};
ghost use Rattle.rules.specs.Line.{line_text};
ghost use Rattle.rules.specs.Reasons.{reply_of};
ghost use Rattle.rules.specs.Request as Request;
ghost use Rattle.rules.specs.Writing.{text_left, writing, write_request, write_give_up};
ghost use Rattle.journal_writing.specs.StepNamed.{StepNamed};

use give_up_steps::Terms;
use rules::refusals::{self, Reason, Refusal};
use rules::{Heading, Reply, Step};

// A line whose figures, in two lists, passed test 3 or failed it.
fn write_tested(
    text: &mut [u8],
    valid: bool,
    heading: Heading,
    figures: &[i64],
    more: &[i64],
) -> Result<Reply, Refusal>
    requires { (length figures.now ≤ 6) × (valid ≡ true → length more.now ≤ 2000) }
    ensures { text_left (reply_of result) text.new ≡ writing valid (line_text heading (figures.now ++ more.now)) text.old }
{
    if !valid {
        return Err(Refusal::from(Reason::OutOfRange));
    }
    let width = writer::line::line_width(heading, figures, more);
    if text.len() < width {
        return Err(Refusal::from(Reason::NoRoom));
    }
    let end = writer::line::write_line(text, 0, heading, figures, more);
    Ok(Reply::Written(end as i64))
}

// The same, as a call answers it.
fn write(text: &mut [u8], valid: bool, heading: Heading, figures: &[i64], more: &[i64]) -> Reply
    requires { (length figures.now ≤ 6) × (valid ≡ true → length more.now ≤ 2000) }
    ensures { text_left result text.new ≡ writing valid (line_text heading (figures.now ++ more.now)) text.old }
{
    refusals::reply(write_tested(text, valid, heading, figures, more))
}

pub fn write_trade(
    text: &mut [u8],
    id: i64,
    account: i64,
    series: i64,
    side: i64,
    quantity: i64,
    price: i64,
) -> Reply
    ensures { text_left result text.new ≡ write_request (Request.trade id account series side quantity price) text.old }
{
    let valid = trade::figures_valid(id, account, series, side, quantity, price);
    let figures = [id, account, series, side, quantity, price];
    write(text, valid, Heading::Trade, &figures, &[])
}

pub fn write_separation(
    text: &mut [u8],
    id: i64,
    suffix: i64,
    account: i64,
    series: i64,
    parts: &[i64],
) -> Reply
    ensures { text_left result text.new ≡ write_request (Request.separate id suffix account series parts.now) text.old }
{
    let valid = separation::figures_valid(id, suffix, account, series, parts);
    let figures = [id, suffix, account, series];
    write(text, valid, Heading::Separation, &figures, parts)
}

pub fn write_transfer(
    text: &mut [u8],
    id: i64,
    suffix: i64,
    from: i64,
    to: i64,
    series: i64,
) -> Reply
    ensures { text_left result text.new ≡ write_request (Request.transfer id suffix from to series) text.old }
{
    let valid = transfer::figures_valid(id, suffix, from, to, series);
    let figures = [id, suffix, from, to, series];
    write(text, valid, Heading::Transfer, &figures, &[])
}

pub fn write_merge(text: &mut [u8], id: i64, account: i64, series: i64, pairs: &[i64]) -> Reply
    ensures { text_left result text.new ≡ write_request (Request.merge id account series pairs.now) text.old }
{
    let valid = merge_sources::pairs::figures_valid(id, account, series, pairs);
    let figures = [id, account, series];
    write(text, valid, Heading::Merge, &figures, pairs)
}

// The step by the number of its letter.
fn step_named(number: i64) -> Option<Step>
    ensures { StepNamed number result }
{
    let letter = u8::try_from(number).ok()?;
    Step::try_from(letter).ok()
}

pub fn write_give_up(
    text: &mut [u8],
    step: i64,
    process: i64,
    id: i64,
    suffix: i64,
    giving: i64,
    taking: i64,
    series: i64,
) -> Reply
    ensures { text_left result text.new ≡ write_give_up step process id suffix giving taking series text.old }
{
    let Some(named) = step_named(step) else {
        return Reply::from(Refusal::from(Reason::OutOfRange));
    };
    let valid = give_up_steps::figures_valid(Terms {
        process,
        id,
        suffix,
        giving,
        taking,
        series,
    });
    let figures = [process, id, suffix, giving, taking, series];
    write(text, valid, Heading::GiveUp(named), &figures, &[])
}

// Of a day its range alone is test 3: no table is read.
pub fn write_day(text: &mut [u8], day: i64) -> Reply
    ensures { text_left result text.new ≡ write_request (Request.new_day day) text.old }
{
    write(text, figures::valid_day(day), Heading::Day, &[day], &[])
}
