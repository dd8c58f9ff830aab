// The process table of give-ups (document 02, K3), once it passes test 19: its rows, its lookup, and its changes. A process is handed on by value, its stage told apart.
#![tactic(auto)]

ghost use Rattle.std.specs.Prelude.{◌≡◌, true, ◌<◌, length};
ghost use Rattle.rules.specs.Keyed.{upsert};
ghost use Rattle.rules.specs.Rows.{key_of};
ghost use Rattle.rules.specs.ProcessRows.{process_key, stage_number, valid_stage, row_of_process};
ghost use Rattle.rules.specs.Layout.{row_at, room_of, rows_of, write};
ghost use Rattle.rules.specs.Tables.{process_cells, processes_layout, sound_processes};
ghost use Rattle.lookup.specs.Sought.{sought_told};
ghost use Rattle.lookup.specs.Lookup.{sought_in};
ghost use Rattle.processes.specs.Ready.{InsertReady, ReplaceReady};

use lookup::{Absent, Present};
use rules::layout::{PROCESS_WIDTH, PROCESSES_HEADER};
use rules::{Process, ProcessRow, Stage};
use scan::rows;

// The stage of a number that passed the test of a stage.
#[tactic(auto, unfolding(rules::specs::ProcessRows::stage_number))]
pub fn stage_of(number: i64) -> Stage
    requires { valid_stage number ≡ true }
    ensures { stage_number result ≡ number }
{
    match Stage::try_from(number) {
        Ok(stage) => stage,
        Err(_) => Stage::Done,
    }
}

// The row of a process, and the process of a row.
#[tactic(auto, unfolding(rules::specs::ProcessRows::stage_number))]
pub fn row_of(p: Process) -> ProcessRow
    ensures { result ≡ row_of_process p }
{
    ProcessRow {
        process: p.process,
        id: p.id,
        suffix: p.suffix,
        giving: p.giving,
        taking: p.taking,
        series: p.series,
        giver: p.giver,
        taker: p.taker,
        stage: p.stage as i64,
    }
}

pub fn process_of(r: ProcessRow) -> Process
    requires { valid_stage r.stage ≡ true }
    ensures { row_of_process result ≡ r }
{
    Process {
        process: r.process,
        id: r.id,
        suffix: r.suffix,
        giving: r.giving,
        taking: r.taking,
        series: r.series,
        giver: r.giver,
        taker: r.taker,
        stage: stage_of(r.stage),
    }
}

pub fn process_cells(p: Process) -> [i64; PROCESS_WIDTH]
    ensures { result ≡ process_cells (row_of_process p) }
{
    rows::process_cells(row_of(p))
}

pub fn count(cells: &[i64]) -> usize
    requires { sound_processes cells.now ≡ true }
    ensures { result ≡ length (rows_of processes_layout cells.now) }
{
    scan::soundness::count::<ProcessRow>(cells)
}

// How many rows there is room for.
pub fn room(cells: &[i64]) -> usize
    ensures { result ≡ room_of processes_layout cells.now }
{
    scan::soundness::room::<ProcessRow>(cells)
}

// The lookup: what the table has of a process id and the transaction id that the process names.
pub fn look_up(cells: &[i64], process: i64, id: i64) -> Result<Present, Absent>
    requires { sound_processes cells.now ≡ true }
    ensures { sought_told result ≡ sought_in processes_layout (key_of process id) cells.now }
{
    lookup::look_up(
        cells,
        PROCESSES_HEADER,
        PROCESS_WIDTH,
        count(cells),
        process,
        id,
    )
}

// Row `row`, from 0.
pub fn read_process(cells: &[i64], row: usize) -> Process
    requires { (sound_processes cells.now ≡ true) × (row < length (rows_of processes_layout cells.now)) }
    ensures { row_of_process result ≡ row_at processes_layout cells.now row }
{
    process_of(rows::row_at::<ProcessRow>(cells, row))
}

// A process whose id is not used, at the place where its key belongs.
pub fn insert_process(cells: &mut [i64], place: usize, p: Process)
    requires { InsertReady cells.old place p }
    ensures { (cells.new ≡ write processes_layout cells.old (upsert process_key (row_of_process p) (rows_of processes_layout cells.old))) × (sound_processes cells.new ≡ true) }
{
    let n = count(cells);
    let row = process_cells(p);
    shifter::insert_row(cells, PROCESSES_HEADER, n, place, &row);
}

// Row `row` written anew, with the key that it has.
pub fn replace_process(cells: &mut [i64], row: usize, p: Process)
    requires { ReplaceReady cells.old row p }
    ensures { (cells.new ≡ write processes_layout cells.old (upsert process_key (row_of_process p) (rows_of processes_layout cells.old))) × (sound_processes cells.new ≡ true) }
{
    let row_cells = process_cells(p);
    shifter::replace_row(cells, PROCESSES_HEADER, row, &row_cells);
}
