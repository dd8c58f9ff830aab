// The table code, run: tables with no row, one, many and a full room, an id whose suffixes have gaps, and damaged tables. It prints what each call answers, and the cells where they are few.
#![tactic(auto)]

mod add;
mod damage;

use lookup::{Absent, Present};
use rules::layout::{POSITIONS_HEADER, RECORDS_HEADER};
use std::io;
use std::io::Write;
use tables::records;

// What the lookup says of a key in a sound records table.
#[tactic(auto, using(crate::proofs::Looked::rows_sound))]
fn ask<W: Write>(to: &mut W, cells: &[i64], id: i64, suffix: i64) -> io::Result<()> {
    if !scan::soundness::records_sound(cells) {
        return printing::line(to, b"not sound");
    }
    match records::look_up(cells, id, suffix) {
        Ok(
            Present {
                row,
                greatest,
                next,
            },
        ) => {
            writeln!(to, "row {row}")?;
            writeln!(to, "greatest suffix {greatest}")?;
            writeln!(to, "the next suffix belongs at row {next}")
        }
        Err(Absent { place, greatest }) => {
            writeln!(to, "absent, belongs at row {place}")?;
            match greatest {
                Some(suffix) => writeln!(to, "greatest suffix {suffix}"),
                None => printing::line(to, b"no record of that id"),
            }
        }
    }
}

// No row, then one, then three, added in an order that is not the keys'; a key that is there, and a full room, are refused.
fn few_rows<W: Write>(to: &mut W) -> io::Result<()> {
    printing::line(to, b"few records, room for three")?;
    let mut cells: [i64; 49] = printing::no_rows(RECORDS_HEADER);
    ask(to, &cells, 5, 0)?;
    add::tell(to, add::record(&mut cells, 5, 0, 10))?;
    ask(to, &cells, 5, 0)?;
    add::tell(to, add::record(&mut cells, 5, 1, 11))?;
    add::tell(to, add::record(&mut cells, 5, 1, 12))?;
    add::tell(to, add::record(&mut cells, 4, 7, 13))?;
    add::tell(to, add::record(&mut cells, 6, 0, 14))?;
    ask(to, &cells, 5, 1)?;
    ask(to, &cells, 5, 2)?;
    printing::cells(to, &cells)?;
    add::tell(to, add::adjust(&mut cells, 5, 0))?;
    add::tell(to, add::adjust(&mut cells, 5, 0))?;
    printing::cells(to, &cells)
}

// An id whose suffixes are 2, 3 and 9, between two others: each of its keys, those before, between and after them, and an id that lies between and has none.
fn gaps<W: Write>(to: &mut W) -> io::Result<()> {
    printing::line(to, b"suffixes 2, 3 and 9 of id 7")?;
    let mut cells: [i64; 72] = printing::no_rows(RECORDS_HEADER);
    add::tell(to, add::record(&mut cells, 7, 9, 10))?;
    add::tell(to, add::record(&mut cells, 5, 0, 11))?;
    add::tell(to, add::record(&mut cells, 7, 2, 12))?;
    add::tell(to, add::record(&mut cells, 8, 0, 13))?;
    add::tell(to, add::record(&mut cells, 7, 3, 14))?;
    ask(to, &cells, 7, 2)?;
    ask(to, &cells, 7, 3)?;
    ask(to, &cells, 7, 9)?;
    ask(to, &cells, 7, 0)?;
    ask(to, &cells, 7, 5)?;
    ask(to, &cells, 7, 10)?;
    ask(to, &cells, 6, 0)
}

// A room of 4,096 rows, filled from the greatest id down, in a slice with space for more.
fn full_room<W: Write>(to: &mut W) -> io::Result<()> {
    printing::line(to, b"4,096 records, added from the greatest id down")?;
    // Filled in its place: handed out by `no_rows`, so long a table may stand on the stack twice.
    let mut cells = [-1; 57_400];
    cells[..RECORDS_HEADER].fill(0);
    let n = add::down(&mut cells, 4_097);
    writeln!(to, "added {n}")?;
    ask(to, &cells, 1, 0)?;
    ask(to, &cells, 2, 0)?;
    ask(to, &cells, 4_097, 0)?;
    ask(to, &cells, 4_098, 0)?;
    printing::value(to, b"past the room: ", cells[57_346])
}

// Positions: made where absent, written anew where present; a total out of range is refused.
fn few_positions<W: Write>(to: &mut W) -> io::Result<()> {
    printing::line(to, b"positions, room for two")?;
    let mut cells: [i64; 17] = printing::no_rows(POSITIONS_HEADER);
    add::tell(to, add::position(&mut cells, 2, 1, 100, 0, 0, 100, 500))?;
    add::tell(
        to,
        add::position(&mut cells, 1, 1, 0, 7, -3, -7, 4_000_000_000_000_000_000),
    )?;
    add::tell(
        to,
        add::position(&mut cells, 2, 1, 90, 5, 2, 4_000_000_000_000_000_001, 0),
    )?;
    add::tell(to, add::position(&mut cells, 2, 1, 90, 5, 2, 85, -600))?;
    add::tell(to, add::position(&mut cells, 3, 1, 0, 0, 0, 0, 0))?;
    printing::cells(to, &cells)
}

// Tables that fail test 1, one damage each.
fn damaged<W: Write>(to: &mut W) -> io::Result<()> {
    printing::line(to, b"damaged records")?;
    let mut cells: [i64; 44] = printing::no_rows(RECORDS_HEADER);
    add::tell(to, add::record(&mut cells, 5, 0, 10))?;
    add::tell(to, add::record(&mut cells, 5, 1, 11))?;
    damage::each(to, &mut cells)?;
    ask(to, &cells, 5, 1)?;
    ask(to, &cells[0..0], 5, 1)?;
    ask(to, &cells[0..28], 5, 1)
}

fn main(rt: HostRuntime) -> io::Result<()> {
    let mut out = io::writer(&rt);
    few_rows(&mut out)?;
    gaps(&mut out)?;
    full_room(&mut out)?;
    few_positions(&mut out)?;
    damaged(&mut out)
}
