// Writes requests, answers and tables, for the programs that run worked figures through the calls. What `printing` promises of a text is not carried further here.
#![tactic(auto)]

ghost use Rattle.std.specs.Prelude.{◌≡◌, ◌<◌, ◌≤◌, true, length, IfOk};

use rules::Reply;
use rules::layout::{
    DAY_CELL, POSITION_WIDTH, POSITIONS_HEADER, PROCESS_WIDTH, PROCESSES_HEADER, RECORD_WIDTH,
    RECORDS_HEADER,
};
use std::io;
use std::io::Write;

// What the figures of a request and the cells of a row are.
pub fn legend<W: Write>(to: &mut W) -> io::Result<()> {
    printing::line(
        to,
        b"trade: id, account, series, side code, quantity, price",
    )?;
    printing::line(to, b"batch: the figures of its trades")?;
    printing::line(to, b"separation: id, suffix, account, series; parts")?;
    printing::line(to, b"transfer: id, suffix, from, to, series")?;
    printing::line(to, b"merge: id, account, series; pairs of id and suffix")?;
    printing::line(to, b"lineage: id, suffix")?;
    tables_legend(to)
}

pub fn tables_legend<W: Write>(to: &mut W) -> io::Result<()> {
    printing::line(
        to,
        b"records: count, current day | id | suffix | parent | type | status | account | series \
         | side code | quantity | price | long booked | short booked | into | day |",
    )?;
    printing::line(
        to,
        b"positions: count | account | series | long | short | cash | quantity | value |",
    )
}

pub fn processes_legend<W: Write>(to: &mut W) -> io::Result<()> {
    printing::line(
        to,
        b"processes: count | process id | id | suffix | giving account | taking account \
         | series | giver's approval | taker's approval | stage |",
    )
}

// The name of an example, and its tables at the start.
pub fn start<W: Write>(
    to: &mut W,
    name: &[u8],
    records: &[i64],
    positions: &[i64],
) -> io::Result<()> {
    printing::text(to, b"\n")?;
    printing::line(to, name)?;
    tables(to, records, positions)
}

// Each figure with a blank before it.
fn figures<W: Write>(to: &mut W, all: &[i64]) -> io::Result<()> {
    for z in all {
        write!(to, " {z}")?;
    }
    Ok(())
}

// A request: its name, its figures, and its list if it has one.
pub fn request<W: Write>(to: &mut W, name: &[u8], all: &[i64], list: &[i64]) -> io::Result<()> {
    printing::text(to, b"> ")?;
    printing::text(to, name)?;
    figures(to, all)?;
    if !list.is_empty() {
        printing::text(to, b";")?;
        figures(to, list)?;
    }
    printing::text(to, b"\n")
}

pub fn reply<W: Write>(to: &mut W, r: Reply) -> io::Result<()> {
    match r {
        Reply::Booked { rows, residual } => {
            writeln!(to, "booked: rows, residual {rows} {residual}")
        }
        Reply::ClosingError { excess } => {
            writeln!(to, "booked with a closing error: excess {excess}")
        }
        Reply::Lineage { price, links } => writeln!(to, "lineage: price, links {price} {links}"),
        Reply::Refused(number, place) => writeln!(to, "refused: number, place {number} {place}"),
        Reply::Stopped {
            booked,
            number,
            place,
        } => {
            writeln!(
                to,
                "stopped: booked, number, place {booked} {number} {place}"
            )
        }
        Reply::Written(bytes) => writeln!(to, "written: bytes {bytes}"),
        Reply::Replayed(lines) => writeln!(to, "replayed: lines {lines}"),
        Reply::BadLine(line) => writeln!(to, "bad line: line {line}"),
        Reply::LineRefused(line, number, place) => {
            writeln!(
                to,
                "line refused: line, number, place {line} {number} {place}"
            )
        }
        Reply::Listed(records) => writeln!(to, "listed: records {records}"),
    }
}

// Every cell lent for the excesses of a batch.
pub fn excesses<W: Write>(to: &mut W, cells: &[i64]) -> io::Result<()> {
    printing::text(to, b"excess:")?;
    figures(to, cells)?;
    printing::text(to, b"\n")
}

// How the rows of a table lie: the cells before the first, and those of each.
#[derive(Clone, Copy)]
struct Shape {
    header: usize,
    width: usize,
    ghost wide: { 0 < width },
}

const RECORDS: Shape = Shape {
    header: RECORDS_HEADER,
    width: RECORD_WIDTH,
};

const POSITIONS: Shape = Shape {
    header: POSITIONS_HEADER,
    width: POSITION_WIDTH,
};

const PROCESSES: Shape = Shape {
    header: PROCESSES_HEADER,
    width: PROCESS_WIDTH,
};

// So many rows after the header, as far as there are cells; answers the first cell past them.
fn rows<W: Write>(to: &mut W, cells: &[i64], count: usize, shape: Shape) -> io::Result<usize>
    requires { shape.header ≤ length cells.now }
    ensures { IfOk result (λ at. at ≤ length cells.now) }
{
    let shown = count.min((cells.len() - shape.header) / shape.width);
    let end = shape.header + shown * shape.width;
    for row in cells[shape.header..end].chunks_exact(shape.width) {
        printing::cells(to, row)?;
    }
    Ok(end)
}

// Whether two cells have the same value: only such stand in one run.
fn same(a: &i64, b: &i64) -> bool
    ensures { (result ≡ true → a.now ≡ b.now) × (a.now ≡ b.now → result ≡ true) }
{
    a == b
}

// The cells that hold no row: how many in turn have which value.
fn past<W: Write>(to: &mut W, cells: &[i64]) -> io::Result<()> {
    printing::text(to, b"past the last row:")?;
    if cells.is_empty() {
        printing::text(to, b" no cell")?;
    }
    for (i, run) in cells.chunk_by(same).enumerate() {
        let comma = if i == 0 { "" } else { "," };
        write!(to, "{comma} {} times {}", run.len(), run[0])?;
    }
    printing::text(to, b"\n")
}

// The current day, which the records' header has after the count.
fn day<W: Write>(to: &mut W, cells: &[i64], header: usize) -> io::Result<()> {
    match cells.get(DAY_CELL) {
        Some(day) if DAY_CELL < header => write!(to, ", day {day}"),
        _ => Ok(()),
    }
}

// The count, for the records the current day, the rows, and the cells past them.
fn table<W: Write>(to: &mut W, cells: &[i64], shape: Shape) -> io::Result<()> {
    let Some(&count) = cells.first() else {
        return printing::line(to, b"an empty slice");
    };
    printing::number(to, count)?;
    day(to, cells, shape.header)?;
    printing::text(to, b"\n")?;
    if cells.len() < shape.header {
        return Ok(());
    }
    let Ok(count) = usize::try_from(count) else {
        return Ok(());
    };
    let end = rows(to, cells, count, shape)?;
    past(to, &cells[end..])
}

pub fn tables<W: Write>(to: &mut W, records: &[i64], positions: &[i64]) -> io::Result<()> {
    printing::text(to, b"records: ")?;
    table(to, records, RECORDS)?;
    printing::text(to, b"positions: ")?;
    table(to, positions, POSITIONS)
}

pub fn processes<W: Write>(to: &mut W, cells: &[i64]) -> io::Result<()> {
    printing::text(to, b"processes: ")?;
    table(to, cells, PROCESSES)
}
