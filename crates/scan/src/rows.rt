// A row of a lent table, whichever the table: how it lies there, its key, and when it is sound. What is done to the three tables alike is written once, over any row.
ghost use Rattle.std.specs.Prelude.{◌≡◌, ℕ, ℤ, Bool, suc, ◌+◌, ◌≤◌, length, refl};
ghost use Rattle.std.proofs.Common.{rules};
ghost use Rattle.rules.specs.Keyed.{Key, below};
ghost use Rattle.rules.specs.Rows.{record_key, position_key, sound_position};
ghost use Rattle.rules.specs.ProcessRows.{process_number, sound_process};
ghost use Rattle.rules.specs.Layout.{Layout, row_at, start_of};
ghost use Rattle.rules.specs.Tables.{record_at, record_cells, position_at, position_cells, process_at, process_cells, records_layout, positions_layout, processes_layout};
ghost use Rattle.cells.specs.Lawful.{Lawful};
ghost use Rattle.cells.proofs.RowCells.{records-lawful, positions-lawful, processes-lawful};
ghost use Rattle.scan.specs.Scan.{sound_record_on};

use super::soundness;
use rules::layout::{
    MOST_POSITIONS, MOST_PROCESSES, MOST_RECORDS, POSITION_WIDTH, POSITIONS_HEADER, PROCESS_WIDTH,
    PROCESSES_HEADER, RECORD_WIDTH, RECORDS_HEADER,
};
use rules::{Position, ProcessRow, Record};

pub trait Row: Copy {
    ghost layout: { Layout Self };

    // What must rise from row to row.
    ghost key: { Self → Key };

    // Whether a row may stand in a table of this day.
    ghost sound_on: { ℤ → Self → Bool };

    ghost HEADER: { ℕ };

    ghost WIDTH: { ℕ };

    ghost MOST: { ℕ };

    // Cells before the first row, cells a row, and the greatest room.
    const HEADER: usize;

    const WIDTH: usize;

    const MOST: usize;

    // The row whose first cell is at a place.
    fn read(cells: &[i64], at: usize) -> Self
        requires { at + layout.width ≤ length cells.now }
        ensures { result ≡ layout.get cells.now at };

    fn sound_on(self, today: i64) -> bool
        ensures { result ≡ sound_on today self };

    fn comes_before(self, next: Self) -> bool
        ensures { result ≡ below (key self) (key next) };

    ghost header_is: { HEADER ≡ layout.header };

    ghost width_is: { WIDTH ≡ layout.width };

    ghost most_is: { MOST ≡ layout.most };

    ghost most_small: { layout.most ≤ 4096 };

    ghost lawful: { Lawful layout };
}

impl Row for Record {
    ghost layout = { records_layout };

    ghost key = { record_key };

    ghost sound_on = { sound_record_on };

    ghost HEADER = { 2 };

    ghost WIDTH = { 14 };

    ghost MOST = { 4096 };

    const HEADER: usize = RECORDS_HEADER;

    const WIDTH: usize = RECORD_WIDTH;

    const MOST: usize = MOST_RECORDS;

    fn read(cells: &[i64], at: usize) -> Record {
        Record {
            id: cells[at],
            suffix: cells[at + 1],
            parent: cells[at + 2],
            kind: cells[at + 3],
            status: cells[at + 4],
            account: cells[at + 5],
            series: cells[at + 6],
            side: cells[at + 7],
            quantity: cells[at + 8],
            price: cells[at + 9],
            long: cells[at + 10],
            short: cells[at + 11],
            into: cells[at + 12],
            day: cells[at + 13],
        }
    }

    // The day first, which no other table has.
    #[tactic(auto, unfolding(crate::specs::Scan::sound_record_on, rules::specs::Tables::day_within))]
    fn sound_on(self, today: i64) -> bool {
        figures::in_range(0, today, self.day) && soundness::sound_record(self)
    }

    fn comes_before(self, next: Record) -> bool {
        lookup::key_below(self.id, self.suffix, next.id, next.suffix)
    }

    ghost header_is = { refl };

    ghost width_is = { refl };

    ghost most_is = { refl };

    ghost most_small = { Prim.search rules };

    ghost lawful = { records-lawful };
}

impl Row for Position {
    ghost layout = { positions_layout };

    ghost key = { position_key };

    ghost sound_on = { λ (today : ℤ). sound_position };

    ghost HEADER = { 1 };

    ghost WIDTH = { 7 };

    ghost MOST = { 1024 };

    const HEADER: usize = POSITIONS_HEADER;

    const WIDTH: usize = POSITION_WIDTH;

    const MOST: usize = MOST_POSITIONS;

    fn read(cells: &[i64], at: usize) -> Position {
        Position {
            account: cells[at],
            series: cells[at + 1],
            long: cells[at + 2],
            short: cells[at + 3],
            cash: cells[at + 4],
            quantity: cells[at + 5],
            value: cells[at + 6],
        }
    }

    fn sound_on(self, _today: i64) -> bool {
        soundness::sound_position(self)
    }

    fn comes_before(self, next: Position) -> bool {
        lookup::key_below(self.account, self.series, next.account, next.series)
    }

    ghost header_is = { refl };

    ghost width_is = { refl };

    ghost most_is = { refl };

    ghost most_small = { Prim.search rules };

    ghost lawful = { positions-lawful };
}

impl Row for ProcessRow {
    ghost layout = { processes_layout };

    ghost key = { process_number };

    ghost sound_on = { λ (today : ℤ). sound_process };

    ghost HEADER = { 1 };

    ghost WIDTH = { 9 };

    ghost MOST = { 1024 };

    const HEADER: usize = PROCESSES_HEADER;

    const WIDTH: usize = PROCESS_WIDTH;

    const MOST: usize = MOST_PROCESSES;

    fn read(cells: &[i64], at: usize) -> ProcessRow {
        ProcessRow {
            process: cells[at],
            id: cells[at + 1],
            suffix: cells[at + 2],
            giving: cells[at + 3],
            taking: cells[at + 4],
            series: cells[at + 5],
            giver: cells[at + 6],
            taker: cells[at + 7],
            stage: cells[at + 8],
        }
    }

    fn sound_on(self, _today: i64) -> bool {
        soundness::sound_process(self)
    }

    // The process ids alone rise.
    fn comes_before(self, next: ProcessRow) -> bool {
        lookup::key_below(self.process, 0, next.process, 0)
    }

    ghost header_is = { refl };

    ghost width_is = { refl };

    ghost most_is = { refl };

    ghost most_small = { Prim.search rules };

    ghost lawful = { processes-lawful };
}

// Row `row`, from 0.
pub fn row_at<R: Row>(cells: &[i64], row: usize) -> R
    requires { start_of R.layout (suc row) ≤ length cells.now }
    ensures { result ≡ row_at R.layout cells.now row }
{
    R::read(cells, R::HEADER + row * R::WIDTH)
}

pub fn record_at(cells: &[i64], at: usize) -> Record
    requires { at + records_layout.width ≤ length cells.now }
    ensures { result ≡ record_at cells.now at }
{
    Record::read(cells, at)
}

pub fn position_at(cells: &[i64], at: usize) -> Position
    requires { at + positions_layout.width ≤ length cells.now }
    ensures { result ≡ position_at cells.now at }
{
    Position::read(cells, at)
}

pub fn process_at(cells: &[i64], at: usize) -> ProcessRow
    requires { at + processes_layout.width ≤ length cells.now }
    ensures { result ≡ process_at cells.now at }
{
    ProcessRow::read(cells, at)
}

#[tactic(auto, unfolding(rules::specs::Tables::record_cells))]
pub fn record_cells(r: Record) -> [i64; RECORD_WIDTH]
    ensures { result ≡ record_cells r }
{
    [
        r.id, r.suffix, r.parent, r.kind, r.status, r.account, r.series, r.side, r.quantity,
        r.price, r.long, r.short, r.into, r.day,
    ]
}

#[tactic(auto, unfolding(rules::specs::Tables::position_cells))]
pub fn position_cells(p: Position) -> [i64; POSITION_WIDTH]
    ensures { result ≡ position_cells p }
{
    [
        p.account, p.series, p.long, p.short, p.cash, p.quantity, p.value,
    ]
}

#[tactic(auto, unfolding(rules::specs::Tables::process_cells))]
pub fn process_cells(r: ProcessRow) -> [i64; PROCESS_WIDTH]
    ensures { result ≡ process_cells r }
{
    [
        r.process, r.id, r.suffix, r.giving, r.taking, r.series, r.giver, r.taker, r.stage,
    ]
}
