// The request that a line of a journal names, booked on sound records (document 02, K5). Whether the positions and the process table are sound is told: beside positions that are not every request is
// refused 2 but a new day (K8), and a step of a give-up beside processes that are not is refused 19.
#![tactic(auto)]

ghost use Rattle.std.specs.Prelude.{◌≤◌, ◌≡◌, true, length};
ghost use Rattle.rules.specs.Reasons.{answer_of};
ghost use Rattle.rules.specs.Reader.{has_its_figures, request_named};
ghost use Rattle.rules.specs.Tables.{all_tables, tables_of, sound_records, sound_positions, sound_processes};
ghost use Rattle.rules.specs.declared.Heading.TheVariants as Heading;
ghost use Rattle.journal_booking.specs.RequestBooked.{RequestBooked, BookedBeside, verdict_of_reply, is_day};

use give_up_steps::Terms;
use rules::refusals::{Confirmation, Reason, Refusal};
use rules::{Heading, Step};

fn book_trade(
    records: &mut [i64],
    positions: &mut [i64],
    figures: &[i64],
) -> Result<Confirmation, Refusal>
    requires { (sound_records records.old ≡ true) × (sound_positions positions.old ≡ true) × (length figures.now ≡ 6) }
    ensures { RequestBooked (tables_of records.old positions.old) (request_named Heading.Trade figures.now) (verdict_of_reply (answer_of result)) (tables_of records.new positions.new) }
{
    let id = figures[0];
    let account = figures[1];
    let series = figures[2];
    let side = figures[3];
    let quantity = figures[4];
    let price = figures[5];
    trade::on_sound(
        records, positions, id, account, series, side, quantity, price,
    )
}

fn book_separation(
    records: &mut [i64],
    positions: &mut [i64],
    figures: &[i64],
) -> Result<Confirmation, Refusal>
    requires { (sound_records records.old ≡ true) × (sound_positions positions.old ≡ true) × (4 ≤ length figures.now) }
    ensures { RequestBooked (tables_of records.old positions.old) (request_named Heading.Separation figures.now) (verdict_of_reply (answer_of result)) (tables_of records.new positions.new) }
{
    let id = figures[0];
    let suffix = figures[1];
    let account = figures[2];
    let series = figures[3];
    separation::on_sound(
        records,
        positions,
        id,
        suffix,
        account,
        series,
        &figures[4..],
    )
}

fn book_transfer(
    records: &mut [i64],
    positions: &mut [i64],
    figures: &[i64],
) -> Result<Confirmation, Refusal>
    requires { (sound_records records.old ≡ true) × (sound_positions positions.old ≡ true) × (length figures.now ≡ 5) }
    ensures { RequestBooked (tables_of records.old positions.old) (request_named Heading.Transfer figures.now) (verdict_of_reply (answer_of result)) (tables_of records.new positions.new) }
{
    let id = figures[0];
    let suffix = figures[1];
    let from = figures[2];
    let to = figures[3];
    let series = figures[4];
    transfer::on_sound(records, positions, id, suffix, from, to, series)
}

fn book_merge(
    records: &mut [i64],
    positions: &mut [i64],
    figures: &[i64],
) -> Result<Confirmation, Refusal>
    requires { (sound_records records.old ≡ true) × (sound_positions positions.old ≡ true) × (3 ≤ length figures.now) }
    ensures { RequestBooked (tables_of records.old positions.old) (request_named Heading.Merge figures.now) (verdict_of_reply (answer_of result)) (tables_of records.new positions.new) }
{
    let id = figures[0];
    let account = figures[1];
    let series = figures[2];
    merge::call::on_sound(records, positions, id, account, series, &figures[3..])
}

fn book_step(
    records: &mut [i64],
    positions: &mut [i64],
    processes: &mut [i64],
    sound: bool,
    step: Step,
    figures: &[i64],
) -> Result<Confirmation, Refusal>
    requires { (sound_records records.old ≡ true) × (sound_positions positions.old ≡ true) × (sound ≡ sound_processes processes.old) × (length figures.now ≡ 6) }
    ensures { RequestBooked (all_tables records.old positions.old processes.old) (request_named (Heading.GiveUp step) figures.now) (verdict_of_reply (answer_of result)) (all_tables records.new positions.new processes.new) }
{
    if !sound {
        return Err(Refusal::from(Reason::ProcessesUnsound));
    }
    let process = figures[0];
    let id = figures[1];
    let suffix = figures[2];
    let giving = figures[3];
    let taking = figures[4];
    let series = figures[5];
    let g = Terms {
        process,
        id,
        suffix,
        giving,
        taking,
        series,
    };
    give_up::on_sound(records, positions, processes, step, g)
}

// A day neither reads nor changes the other tables.
fn book_day(records: &mut [i64], figures: &[i64]) -> Result<Confirmation, Refusal>
    requires { (sound_records records.old ≡ true) × (length figures.now ≡ 1) }
    ensures { BookedBeside records.old (request_named Heading.Day figures.now) (verdict_of_reply (answer_of result)) records.new }
{
    let day = figures[0];
    new_day::on_sound(records, day)
}

// On sound positions.
fn book_on_positions(
    records: &mut [i64],
    positions: &mut [i64],
    processes: &mut [i64],
    sound: bool,
    heading: Heading,
    figures: &[i64],
) -> Result<Confirmation, Refusal>
    requires { (sound_records records.old ≡ true) × (sound_positions positions.old ≡ true) × (sound ≡ sound_processes processes.old) × (has_its_figures heading (length figures.now) ≡ true) }
    ensures { RequestBooked (all_tables records.old positions.old processes.old) (request_named heading figures.now) (verdict_of_reply (answer_of result)) (all_tables records.new positions.new processes.new) }
{
    match heading {
        Heading::Trade => book_trade(records, positions, figures),
        Heading::Separation => book_separation(records, positions, figures),
        Heading::Transfer => book_transfer(records, positions, figures),
        Heading::Merge => book_merge(records, positions, figures),
        Heading::GiveUp(step) => book_step(records, positions, processes, sound, step, figures),
        Heading::Day => book_day(records, figures),
    }
}

fn is_day(heading: Heading) -> bool
    ensures { result ≡ is_day heading }
{
    matches!(heading, Heading::Day)
}

// `passes2` tells whether the positions pass test 2, `passes19` whether the processes pass test 19.
pub fn book_line(
    records: &mut [i64],
    positions: &mut [i64],
    processes: &mut [i64],
    passes2: bool,
    passes19: bool,
    heading: Heading,
    figures: &[i64],
) -> Result<Confirmation, Refusal>
    requires { (sound_records records.old ≡ true) × (passes2 ≡ sound_positions positions.old) × (passes19 ≡ sound_processes processes.old) × (has_its_figures heading (length figures.now) ≡ true) }
    ensures { RequestBooked (all_tables records.old positions.old processes.old) (request_named heading figures.now) (verdict_of_reply (answer_of result)) (all_tables records.new positions.new processes.new) }
{
    if passes2 {
        return book_on_positions(records, positions, processes, passes19, heading, figures);
    }
    if is_day(heading) {
        return book_day(records, figures);
    }
    Err(Refusal::from(Reason::PositionsUnsound))
}
