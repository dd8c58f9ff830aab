// Document 01's "Figures to check by hand" and its clerk's slips, and document 02's batches and halves away from zero, run through the proved calls: the examples of the crate `worked`, which proves them
// of the rules, with the same cells at the start and the same requests in the same order. Printed are the tables at the start, and after each request
// its answer and both tables, the cells past the last row too. A cell that holds no row is -1 at the start.
#![tactic(auto)]

mod calls;

use calls::Tables;
use rules::layout::POSITIONS_HEADER;
use std::io;
use std::io::Write;

// The name of an example, and its tables at the start.
fn start<W: Write, const R: usize, const P: usize>(
    out: &mut W,
    name: &str,
    tables: &Tables<R, P>,
) -> io::Result<()> {
    showing::start(out, name.as_bytes(), &tables.records, &tables.positions)
}

// One position, of account 1 and series 1, with room for two.
fn one_position(long: i64, short: i64) -> [i64; 15] {
    [1, 1, 1, long, short, 0, 0, 0, -1, -1, -1, -1, -1, -1, -1]
}

// P1 to P3: a trade to close.
fn closing<W: Write>(
    out: &mut W,
    name: &str,
    positions: [i64; 15],
    quantity: i64,
) -> io::Result<()> {
    let mut tables = Tables::<30, 15>::new();
    tables.positions = positions;
    start(out, name, &tables)?;
    tables.trade(out, [7, 1, 1, 3, quantity, 5])
}

// Two trades to open, of a side, and their merge.
fn merging<W: Write>(
    out: &mut W,
    name: &str,
    side: i64,
    q1: i64,
    p1: i64,
    q2: i64,
    p2: i64,
) -> io::Result<()> {
    let mut tables = Tables::<86, 8>::new();
    start(out, name, &tables)?;
    tables.trade(out, [1, 4, 9, side, q1, p1])?;
    tables.trade(out, [2, 4, 9, side, q2, p2])?;
    tables.merge(out, [3, 4, 9], &[1, 0, 2, 0])
}

// A trade, then its separation.
fn separating<W: Write>(out: &mut W, name: &str, quantity: i64, parts: &[i64]) -> io::Result<()> {
    let mut tables = Tables::<72, 8>::new();
    start(out, name, &tables)?;
    tables.trade(out, [8, 1, 1, 1, quantity, 5])?;
    tables.separate(out, [8, 0, 1, 1], parts)
}

// The same pair twice.
fn p10<W: Write>(out: &mut W) -> io::Result<()> {
    let mut tables = Tables::<72, 8>::new();
    start(out, "P10", &tables)?;
    tables.trade(out, [8, 1, 1, 1, 100, 5])?;
    tables.merge(out, [9, 1, 1], &[8, 0, 8, 0])
}

fn p11<W: Write>(out: &mut W) -> io::Result<()> {
    let id = 456_789;
    let mut tables = Tables::<114, 22>::new();
    start(out, "P11", &tables)?;
    tables.trade(out, [id, 1, 1, 1, 100, 1_250_000_000])?;
    tables.transfer(out, [id, 0, 1, 2, 1])?;
    tables.separate(out, [id, 2, 2, 1], &[50, 25, 25])
}

// One trade on tables with room for its rows.
fn trading<W: Write>(
    out: &mut W,
    name: &str,
    side: i64,
    quantity: i64,
    price: i64,
) -> io::Result<()> {
    let mut tables = Tables::<16, 8>::new();
    start(out, name, &tables)?;
    tables.trade(out, [7, 1, 1, side, quantity, price])
}

// The same trade on tables without room.
fn without_room<W: Write, const R: usize, const P: usize>(
    out: &mut W,
    name: &str,
    mut tables: Tables<R, P>,
) -> io::Result<()> {
    start(out, name, &tables)?;
    tables.trade(out, [7, 1, 1, 1, 100, 5])
}

fn shared_id<W: Write>(out: &mut W) -> io::Result<()> {
    let mut tables = Tables::<100, 8>::new();
    start(out, "Two sources that share an id, and lineage", &tables)?;
    tables.trade(out, [5, 1, 1, 1, 4, -1])?;
    tables.separate(out, [5, 0, 1, 1], &[3, 1])?;
    tables.merge(out, [6, 1, 1], &[5, 2, 5, 3])?;
    tables.lineage(out, 5, 3)?;
    tables.lineage(out, 5, 6)
}

// P6 as document 01's rule booked it, at 0 with a residual of 1.
fn book_p6(tables: &mut Tables<156, 15>) {
    let records = &mut tables.records;
    let positions = &mut tables.positions;
    book::trade(records, positions, 1, 4, 9, 1, 1, -1);
    book::trade(records, positions, 2, 4, 9, 1, 1, 0);
    book::merge(records, positions, 3, 4, 9, &[1, 0, 2, 0]);
    records[67] = 0;
    positions[5] = 1;
    positions[7] = 0;
}

// The merged record is transferred, and merged with a trade.
fn merged_before<W: Write>(out: &mut W) -> io::Result<()> {
    let mut tables = Tables::<156, 15>::new();
    book_p6(&mut tables);
    start(out, "A record merged before, at 0", &tables)?;
    tables.transfer(out, [3, 0, 4, 5, 9])?;
    tables.trade(out, [4, 5, 9, 1, 2, -1])?;
    tables.merge(out, [6, 5, 9], &[3, 2, 4, 0])?;
    tables.lineage(out, 3, 2)
}

// The figures to be proved, P1 to P11.
fn proved<W: Write>(out: &mut W) -> io::Result<()> {
    closing(out, "P1", one_position(100, 120), 150)?;
    closing(out, "P2", printing::no_rows(POSITIONS_HEADER), 100)?;
    closing(out, "P3", one_position(0, 120), 120)?;
    merging(out, "P4", 1, 2, 10_000_000, 1, 10_000_001)?;
    merging(out, "P5, buys", 1, 1, 10_000_000, 1, 10_000_001)?;
    merging(out, "P5, sells", 2, 1, 10_000_000, 1, 10_000_001)?;
    merging(out, "P6", 1, 1, -1, 1, 0)?;
    separating(out, "P7", 100, &[50, 25, 25])?;
    separating(out, "P8", 100, &[50, 25, 24])?;
    separating(out, "P9", 1, &[1])?;
    p10(out)?;
    p11(out)
}

// A trade on tables of no cell, of a lone 0, and of a header each.
fn no_room<W: Write>(out: &mut W) -> io::Result<()> {
    let empty = Tables {
        records: [],
        positions: [],
    };
    let lone = Tables {
        records: [0],
        positions: [0],
    };
    without_room(out, "An empty slice", empty)?;
    without_room(out, "Both tables a lone 0", lone)?;
    without_room(out, "Records 0, 0", Tables::<2, 1>::new())
}

// The figures that carry no P, and the slips.
fn others<W: Write>(out: &mut W) -> io::Result<()> {
    trading(out, "Quantity 1,000,000", 2, 1_000_000, -1_000_000_000_000)?;
    trading(out, "Quantity 1,000,001", 1, 1_000_001, 5)?;
    no_room(out)?;
    merging(out, "V = -3 with Q = 4", 1, 3, -1, 1, 0)?;
    merging(out, "P6 at 1 and 0", 1, 1, 1, 1, 0)?;
    merging(out, "P6, sells", 2, 1, -1, 1, 0)?;
    merging(out, "P6 at 1 and 0, sells", 2, 1, 1, 1, 0)?;
    merged_before(out)?;
    shared_id(out)
}

// A batch of trades, with P1's position at the start.
fn batch<W: Write>(out: &mut W, name: &str, figures: &[i64], excess: &mut [i64]) -> io::Result<()> {
    let mut tables = Tables::<44, 15>::new();
    tables.positions = one_position(100, 120);
    start(out, name, &tables)?;
    tables.trades(out, figures, excess)
}

// Document 02, K1.
fn batches<W: Write>(out: &mut W) -> io::Result<()> {
    let mut one = [-1; 1];
    let mut two = [-1; 2];
    let mut five = [-1; 5];
    let first_two = [7, 1, 1, 3, 150, 5, 8, 2, 1, 2, 10, 6];
    batch(out, "A batch, all booked", &first_two, &mut two)?;
    batch(
        out,
        "A batch that stops in the middle",
        &[
            7, 1, 1, 3, 150, 5, 8, 2, 1, 2, 10, 6, 7, 1, 1, 1, 1, 5, 9, 1, 1, 1, 1, 5,
        ],
        &mut five,
    )?;
    batch(
        out,
        "A batch whose first trade is refused",
        &[7, 1, 1, 3, 0, 5],
        &mut one,
    )?;
    batch(
        out,
        "A batch with too few cells for its excesses",
        &first_two,
        &mut one,
    )?;
    batch(out, "A batch of no trade", &[], &mut one)
}

fn main(rt: HostRuntime) -> io::Result<()> {
    let mut out = io::writer(&rt);
    showing::legend(&mut out)?;
    proved(&mut out)?;
    others(&mut out)?;
    batches(&mut out)
}
