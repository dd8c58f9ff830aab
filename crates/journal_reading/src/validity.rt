// Test 3 of the figures of a line: as many as its kind asks for, and each in its range.
#![tactic(auto, unfolding(rules::specs::Reader::is_valid_line, rules::specs::Reader::has_its_figures, rules::specs::Reader::request_named, rules::specs::Line::passes_test3))]

ghost use Rattle.std.specs.Prelude.{◌≡◌};
ghost use Rattle.rules.specs.Reader.{is_valid_line};
ghost use Rattle.rules.specs.declared.Step.TheVariants.{Open};
ghost use Rattle.rules.specs.declared.Heading.TheVariants as Heading;

use give_up_steps::Terms;
use rules::Heading;

fn trade_valid(figures: &[i64]) -> bool
    ensures { result ≡ is_valid_line Heading.Trade figures.now }
{
    let &[id, account, series, side, quantity, price] = figures else {
        return false;
    };
    trade::figures_valid(id, account, series, side, quantity, price)
}

fn separation_valid(figures: &[i64]) -> bool
    ensures { result ≡ is_valid_line Heading.Separation figures.now }
{
    let [id, suffix, account, series, parts @ ..] = figures else {
        return false;
    };
    separation::figures_valid(*id, *suffix, *account, *series, parts)
}

fn transfer_valid(figures: &[i64]) -> bool
    ensures { result ≡ is_valid_line Heading.Transfer figures.now }
{
    let &[id, suffix, from, to, series] = figures else {
        return false;
    };
    transfer::figures_valid(id, suffix, from, to, series)
}

fn merge_valid(figures: &[i64]) -> bool
    ensures { result ≡ is_valid_line Heading.Merge figures.now }
{
    let [id, account, series, pairs @ ..] = figures else {
        return false;
    };
    merge_sources::pairs::figures_valid(*id, *account, *series, pairs)
}

// The same for every step.
fn step_valid(figures: &[i64]) -> bool
    ensures { result ≡ is_valid_line (Heading.GiveUp Open) figures.now }
{
    let &[process, id, suffix, giving, taking, series] = figures else {
        return false;
    };
    give_up_steps::figures_valid(Terms {
        process,
        id,
        suffix,
        giving,
        taking,
        series,
    })
}

// A day's range alone: whether it lies after the current day is asked where it is booked.
fn day_valid(figures: &[i64]) -> bool
    ensures { result ≡ is_valid_line Heading.Day figures.now }
{
    let &[day] = figures else {
        return false;
    };
    figures::valid_day(day)
}

pub fn line_valid(heading: Heading, figures: &[i64]) -> bool
    ensures { result ≡ is_valid_line heading figures.now }
{
    match heading {
        Heading::Trade => trade_valid(figures),
        Heading::Separation => separation_valid(figures),
        Heading::Transfer => transfer_valid(figures),
        Heading::Merge => merge_valid(figures),
        Heading::GiveUp(step) => step_valid(figures),
        Heading::Day => day_valid(figures),
    }
}
