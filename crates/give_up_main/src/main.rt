// Document 02's give-ups, run through the proved calls: the examples of `worked` (specs/GiveUps), which proves them of the rules, with the same cells at the start and the same
// requests in the same order. Printed are the tables at the start, and after each request its answer and all three tables, the cells past the last row too.
#![tactic(auto)]

use rules::layout::{POSITIONS_HEADER, PROCESSES_HEADER, RECORDS_HEADER};
use rules::{Reply, Step};
use std::io;
use std::io::Write;

// Trade 456789 of P11, given up from account 1 to account 2 by process 77: process id, id, suffix, giving account, taking account, series.
const ID: i64 = 456_789;

const GIVEN_UP: [i64; 6] = [77, ID, 0, 1, 2, 1];

// The name of a step in what is printed.
fn name(step: Step) -> &'static str {
    match step {
        Step::Open => "open",
        Step::Claim => "claim",
        Step::Cancel => "cancel",
        Step::Refuse => "refuse",
        Step::ApproveGiver => "giver's approval",
        Step::ApproveTaker => "taker's approval",
    }
}

// Room for three records, two positions and two processes, in fixed memory.
#[derive(Drop)]
struct Tables {
    records: [i64; 44],
    positions: [i64; 15],
    processes: [i64; 19],
}

impl Tables {
    // Tables that hold no row.
    fn new() -> Self {
        Tables {
            records: printing::no_rows(RECORDS_HEADER),
            positions: printing::no_rows(POSITIONS_HEADER),
            processes: printing::no_rows(PROCESSES_HEADER),
        }
    }

    fn show<W: Write>(&self, out: &mut W) -> io::Result<()> {
        showing::tables(out, &self.records, &self.positions)?;
        showing::processes(out, &self.processes)
    }

    fn answer<W: Write>(&self, out: &mut W, r: Reply) -> io::Result<()> {
        showing::reply(out, r)?;
        self.show(out)
    }

    fn trade<W: Write>(&mut self, out: &mut W, figures: [i64; 6]) -> io::Result<()> {
        showing::request(out, b"trade", &figures, &[])?;
        let [id, account, series, side, quantity, price] = figures;
        let r = book::trade(
            &mut self.records,
            &mut self.positions,
            id,
            account,
            series,
            side,
            quantity,
            price,
        );
        self.answer(out, r)
    }

    fn separate<W: Write>(
        &mut self,
        out: &mut W,
        figures: [i64; 4],
        parts: &[i64],
    ) -> io::Result<()> {
        showing::request(out, b"separation", &figures, parts)?;
        let [id, suffix, account, series] = figures;
        let r = book::separate(
            &mut self.records,
            &mut self.positions,
            id,
            suffix,
            account,
            series,
            parts,
        );
        self.answer(out, r)
    }

    // A step of the give-up, printed under its name.
    fn step<W: Write>(&mut self, out: &mut W, step: Step) -> io::Result<()> {
        showing::request(out, name(step).as_bytes(), &GIVEN_UP, &[])?;
        let [process, id, suffix, giving, taking, series] = GIVEN_UP;
        let r = book::give_up(
            &mut self.records,
            &mut self.positions,
            &mut self.processes,
            step,
            process,
            id,
            suffix,
            giving,
            taking,
            series,
        );
        self.answer(out, r)
    }

    // The trade, and the opening of its give-up.
    fn open<W: Write>(&mut self, out: &mut W, title: &str) -> io::Result<()> {
        writeln!(out, "\n{title}")?;
        self.show(out)?;
        self.trade(out, [ID, 1, 1, 1, 100, 1_250_000_000])?;
        self.step(out, Step::Open)
    }
}

// The taker's clearing member has no turn before the claim; the giver's has. Then a separation of the record while its give-up is under way.
fn booked<W: Write>(out: &mut W) -> io::Result<()> {
    let mut tables = Tables::new();
    tables.open(out, "A give-up, from its opening to the booked rows")?;
    tables.step(out, Step::ApproveTaker)?;
    tables.step(out, Step::ApproveGiver)?;
    tables.separate(out, [ID, 0, 1, 1], &[50, 50])?;
    tables.step(out, Step::Claim)?;
    tables.step(out, Step::ApproveTaker)
}

fn refused<W: Write>(out: &mut W) -> io::Result<()> {
    let mut tables = Tables::new();
    tables.open(out, "Refused by the taker")?;
    tables.step(out, Step::Refuse)?;
    tables.step(out, Step::Claim)
}

fn cancelled<W: Write>(out: &mut W) -> io::Result<()> {
    let mut tables = Tables::new();
    tables.open(out, "Cancelled")?;
    tables.step(out, Step::Cancel)?;
    tables.step(out, Step::Open)
}

fn legend<W: Write>(out: &mut W) -> io::Result<()> {
    printing::line(
        out,
        b"trade: id, account, series, side code, quantity, price",
    )?;
    printing::line(out, b"separation: id, suffix, account, series; parts")?;
    printing::line(
        out,
        b"a step: process id, id, suffix, giving account, taking account, series",
    )?;
    showing::tables_legend(out)?;
    showing::processes_legend(out)
}

fn main(rt: HostRuntime) -> io::Result<()> {
    let mut out = io::writer(&rt);
    legend(&mut out)?;
    booked(&mut out)?;
    refused(&mut out)?;
    cancelled(&mut out)
}
