// Opening a give-up (document 02, K3), on sound tables: the process id must be unused, the record adjustable and to open; then the record has status 3 and the process table one row more, pending.
#![tactic(auto)]

ghost use Rattle.std.specs.Prelude.{◌≡◌, true, ◌+◌, ltb, length};
ghost use Rattle.rules.specs.Figures.{under_give_up};
ghost use Rattle.rules.specs.Keyed.{upsert};
ghost use Rattle.rules.specs.Rows.{record_key, with_status};
ghost use Rattle.rules.specs.ProcessRows.{process_key};
ghost use Rattle.rules.specs.Reasons.{answer_of};
ghost use Rattle.rules.specs.Refusal.{first_refusal};
ghost use Rattle.rules.specs.Layout.{row_at, room_of, rows_of, write};
ghost use Rattle.rules.specs.Tables.{all_tables, records_layout, processes_layout, sound_processes};
ghost use Rattle.rules.specs.Handle.{answered_by};
ghost use Rattle.rules.specs.declared.Step.TheVariants.{Open};
ghost use Rattle.soundness.specs.SoundTables.{SoundTables};
ghost use Rattle.verdict.specs.Verdict.{judged, verdict_of};
ghost use Rattle.give_up_steps.specs.HandledIn.{HandledIn};
ghost use Rattle.give_up_steps.specs.StepTests.{opening_tests};
ghost use Rattle.give_up_steps.specs.Terms.{step_of, opened_row};
ghost use Rattle.opening.specs.OpeningReady.{OpeningReady};

use give_up_steps::Terms;
use rules::Record;
use rules::codes::{ADJUSTABLE, UNDER_GIVE_UP};
use rules::refusals::{Confirmation, Reason, Refusal};
use tables::records;

// 23: the process table has no room for a row more.
fn lacks_room(processes: &[i64]) -> bool
    requires { sound_processes processes.now ≡ true }
    ensures { result ≡ ltb (room_of processes_layout processes.now) (length (rows_of processes_layout processes.now) + 1) }
{
    processes::room(processes) < processes::count(processes) + 1
}

// Tests 6 to 8, of the record that was found, and 23.
fn verdict(processes: &[i64], r: Record, giving: i64, series: i64) -> Result<(), Reason>
    requires { sound_processes processes.now ≡ true }
    ensures { judged result ≡ verdict_of (first_refusal (opening_tests processes.now r giving series)) }
{
    let elsewhere = requests::is_elsewhere(r, giving, series);
    let status = r.status;
    let full = lacks_room(processes);
    if elsewhere {
        return Err(Reason::Elsewhere);
    }
    if status != ADJUSTABLE {
        return Err(requests::status_refusal(status));
    }
    if figures::is_to_close(r.side) {
        return Err(Reason::ToClose);
    }
    if full {
        return Err(Reason::NoProcessesRoom);
    }
    Ok(())
}

fn book(records: &mut [i64], processes: &mut [i64], row: usize, place: usize, g: Terms)
    requires { OpeningReady records.old processes.old row place g }
    ensures { (records.new ≡ write records_layout records.old (upsert record_key (with_status under_give_up (row_at records_layout records.old row)) (rows_of records_layout records.old))) × (processes.new ≡ write processes_layout processes.old (upsert process_key (opened_row g) (rows_of processes_layout processes.old))) }
{
    let p = stages::opened(g.process, g.id, g.suffix, g.giving, g.taking, g.series);
    records::set_status(records, row, UNDER_GIVE_UP);
    processes::insert_process(processes, place, p);
}

// The positions are neither read nor changed.
pub fn on_sound(
    records: &mut [i64],
    positions: &[i64],
    processes: &mut [i64],
    g: Terms,
) -> Result<Confirmation, Refusal>
    requires { SoundTables (all_tables records.old positions.now processes.old) }
    ensures { HandledIn (all_tables records.old positions.now processes.old) (step_of Open g) (answered_by (answer_of result) (all_tables records.new positions.now processes.new)) }
{
    if !give_up_steps::figures_valid(g) {
        return Err(Refusal::from(Reason::OutOfRange));
    }
    // 18: "a used process id", by this transaction or another.
    let Err(absent) = processes::look_up(processes, g.process, g.id) else {
        return Err(Refusal::from(Reason::OutOfTurn));
    };
    if absent.greatest.is_some() {
        return Err(Refusal::from(Reason::OutOfTurn));
    }
    let Ok(there) = records::look_up(records, g.id, g.suffix) else {
        return Err(Refusal::from(Reason::NoRecord));
    };
    let row = there.row;
    let r = records::read_record(records, row);
    let passed = verdict(processes, r, g.giving, g.series);
    match passed {
        // Bound before it is answered: a wrong answer in its place is then refused by a fact.
        Err(reason) => {
            let refusal = Refusal::from(reason);
            Err(refusal)
        }
        Ok(()) => {
            book(records, processes, row, absent.place, g);
            Ok(Confirmation::Booked {
                rows: 0,
                residual: 0,
            })
        }
    }
}
