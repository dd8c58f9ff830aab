// How rows lie in the lent tables: the numbers of `records_layout`, `positions_layout` and `processes_layout` in specs/Tables.antt. Promises speak by those, so that a number here which differs is refused.

// Cells before the first row, cells a row, and the greatest room.
pub const RECORDS_HEADER: usize = 2;

pub const RECORD_WIDTH: usize = 14;

pub const MOST_RECORDS: usize = 4096;

pub const POSITIONS_HEADER: usize = 1;

pub const POSITION_WIDTH: usize = 7;

pub const MOST_POSITIONS: usize = 1024;

pub const PROCESSES_HEADER: usize = 1;

pub const PROCESS_WIDTH: usize = 9;

pub const MOST_PROCESSES: usize = 1024;

// The cell of a record that has its status.
pub const STATUS_CELL: usize = 4;

// The cell of the records header that has the current day.
pub const DAY_CELL: usize = 1;

// The figures of a trade in a batch: id, account, series, side code, quantity, price (`trade_at` in specs/Batch.antt).
pub const TRADE_WIDTH: usize = 6;

// The figures of a line of a journal: a merge names an id, an account, a series and 1,000 pairs (`most_figures` in specs/Reader.antt).
pub const MOST_FIGURES: usize = 2003;
