// A step on a give-up that is open (document 02, K3), on sound tables: claim, cancel, refuse, and the two approvals. The one that completes claim and both approvals books what a transfer books.
#![tactic(auto)]

ghost use Rattle.std.specs.Prelude.{◌≡◌, true, false, ◌&&◌, ◌<◌, length};
ghost use Rattle.rules.specs.Figures.{adjustable};
ghost use Rattle.rules.specs.Keyed.{upsert_all};
ghost use Rattle.rules.specs.Rows.{record_key, with_status, sound_record};
ghost use Rattle.rules.specs.ProcessRows.{row_of_process};
ghost use Rattle.rules.specs.Reasons.{answer_of, confirmed_by};
ghost use Rattle.rules.specs.Refusal.{first_refusal};
ghost use Rattle.rules.specs.GiveUp.{is_opening, has_figures, has_turn, stepped, is_complete, record_after};
ghost use Rattle.rules.specs.Layout.{row_at, rows_of, write};
ghost use Rattle.rules.specs.Tables.{all_tables, records_layout, sound_record_rows};
ghost use Rattle.rules.specs.Handle.{answered_by};
ghost use Rattle.soundness.specs.SoundTables.{SoundTables};
ghost use Rattle.verdict.specs.Verdict.{judged, verdict_of};
ghost use Rattle.give_up_steps.specs.HandledIn.{HandledIn};
ghost use Rattle.give_up_steps.specs.StepTests.{later_tests};
ghost use Rattle.give_up_steps.specs.Terms.{step_of};
ghost use Rattle.later_steps.specs.LaterReady.{LaterReady, RecordReady};

use give_up_steps::Terms;
use requests::Named;
use rules::codes::{ADJUSTABLE, GIVE_UP, TAKE_UP, UNDER_GIVE_UP};
use rules::refusals::{Confirmation, Reason, Refusal};
use rules::{Process, Record, Step};
use tables::records;

// A step of a give-up, and the process that it names, as it was looked up: its row and what stands there.
#[derive(Clone, Copy)]
struct Turn {
    step: Step,
    terms: Terms,
    at: usize,
    process: Process,
}

// 18: the figures are the row's, and it is the step's turn.
fn may_step(step: Step, p: Process, g: Terms) -> bool
    ensures { result ≡ (has_figures g.suffix g.giving g.taking g.series (row_of_process p) && has_turn step (row_of_process p)) }
{
    stages::has_figures(p, g.suffix, g.giving, g.taking, g.series) && stages::has_turn(step, p)
}

// Tests 6 to 8, of the record that was found: 7 where its status isn't 3.
fn verdict(r: Record, giving: i64, series: i64) -> Result<(), Reason>
    ensures { judged result ≡ verdict_of (first_refusal (later_tests r giving series)) }
{
    if requests::is_elsewhere(r, giving, series) {
        return Err(Reason::Elsewhere);
    }
    if r.status != UNDER_GIVE_UP {
        return Err(Reason::NotAdjustable);
    }
    if figures::is_to_close(r.side) {
        return Err(Reason::ToClose);
    }
    Ok(())
}

// Cancelled or refused sets the record back to status 0; the other steps leave it.
fn restate(records: &mut [i64], row: usize, step: Step)
    requires { (sound_record_rows records.old ≡ true) × (row < length (rows_of records_layout records.old)) × (sound_record (with_status adjustable (row_at records_layout records.old row)) ≡ true) × (is_opening step ≡ false) }
    ensures { records.new ≡ write records_layout records.old (upsert_all record_key (record_after step (row_at records_layout records.old row)) (rows_of records_layout records.old)) }
{
    if matches!(step, Step::Cancel | Step::Refuse) {
        records::set_status(records, row, ADJUSTABLE);
    }
}

// A step that does not complete the give-up: the record's status and the row of its process.
fn advance(
    records: &mut [i64],
    positions: &[i64],
    processes: &mut [i64],
    turn: Turn,
    named: Named,
) -> Confirmation
    requires { RecordReady records.old positions.now processes.old turn named × (is_complete (stepped turn.step (row_of_process turn.process)) ≡ false) }
    ensures { HandledIn (all_tables records.old positions.now processes.old) (step_of turn.step turn.terms) (answered_by (confirmed_by result) (all_tables records.new positions.now processes.new)) }
{
    let row = named.row;
    let at = turn.at;
    let q = stages::stepped(turn.step, turn.process);
    restate(records, row, turn.step);
    processes::replace_process(processes, at, q);
    Confirmation::Booked {
        rows: 0,
        residual: 0,
    }
}

// The step that completes it: tests 12 to 16, then a transfer's booking with types 20 and 30, and the process is done.
fn complete(
    records: &mut [i64],
    positions: &mut [i64],
    processes: &mut [i64],
    turn: Turn,
    named: Named,
) -> Result<Confirmation, Refusal>
    requires { RecordReady records.old positions.old processes.old turn named × (is_complete (stepped turn.step (row_of_process turn.process)) ≡ true) }
    ensures { HandledIn (all_tables records.old positions.old processes.old) (step_of turn.step turn.terms) (answered_by (answer_of result) (all_tables records.new positions.new processes.new)) }
{
    let g = turn.terms;
    let at = turn.at;
    let old = requests::position_held(positions, g.giving, g.series);
    let new = requests::position_held(positions, g.taking, g.series);
    transfer::verdict_on_positions(
        records, positions, named, old, new, g.id, g.suffix, g.giving, g.taking, g.series,
    )?;
    transfer::book_moved(
        records, positions, named, old, new, g.id, g.suffix, g.giving, g.taking, g.series, GIVE_UP,
        TAKE_UP,
    );
    let q = stages::finished(stages::stepped(turn.step, turn.process));
    processes::replace_process(processes, at, q);
    Ok(Confirmation::Booked {
        rows: 2,
        residual: 0,
    })
}

// A step whose turn it is: the record by 5 to 8, then the booking.
fn on_turn(
    records: &mut [i64],
    positions: &mut [i64],
    processes: &mut [i64],
    turn: Turn,
) -> Result<Confirmation, Refusal>
    requires { LaterReady records.old positions.old processes.old turn }
    ensures { HandledIn (all_tables records.old positions.old processes.old) (step_of turn.step turn.terms) (answered_by (answer_of result) (all_tables records.new positions.new processes.new)) }
{
    let g = turn.terms;
    let Ok(there) = records::look_up(records, g.id, g.suffix) else {
        return Err(Refusal::from(Reason::NoRecord));
    };
    let named = requests::record_named(records, g.id, g.suffix, there);
    verdict(named.record, g.giving, g.series)?;
    if stages::is_complete(stages::stepped(turn.step, turn.process)) {
        complete(records, positions, processes, turn, named)
    } else {
        Ok(advance(records, positions, processes, turn, named))
    }
}

pub fn on_sound(
    records: &mut [i64],
    positions: &mut [i64],
    processes: &mut [i64],
    step: Step,
    g: Terms,
) -> Result<Confirmation, Refusal>
    requires { SoundTables (all_tables records.old positions.old processes.old) × (is_opening step ≡ false) }
    ensures { HandledIn (all_tables records.old positions.old processes.old) (step_of step g) (answered_by (answer_of result) (all_tables records.new positions.new processes.new)) }
{
    if !give_up_steps::figures_valid(g) {
        return Err(Refusal::from(Reason::OutOfRange));
    }
    let Ok(there) = processes::look_up(processes, g.process, g.id) else {
        return Err(Refusal::from(Reason::OutOfTurn));
    };
    let at = there.row;
    let process = processes::read_process(processes, at);
    if !may_step(step, process, g) {
        return Err(Refusal::from(Reason::OutOfTurn));
    }
    let turn = Turn {
        step,
        terms: g,
        at,
        process,
    };
    on_turn(records, positions, processes, turn)
}
