// The calls, each printed: its figures and its list, the answer, and both tables as it leaves them.

ghost use Rattle.std.specs.Prelude.{◌≤◌};
ghost use Rattle.printing.specs.NoRow.{HoldsNoRow};

use rules::Reply;
use rules::layout::{POSITIONS_HEADER, RECORDS_HEADER};
use std::io;
use std::io::Write;

// The lent tables, in fixed memory.
#[derive(Drop)]
pub struct Tables<const R: usize, const P: usize> {
    pub records: [i64; R],
    pub positions: [i64; P],
}

impl<const R: usize, const P: usize> Tables<R, P> {
    // Tables that hold no row.
    pub fn new() -> Self
        requires records { 2 ≤ R }
        requires positions { 1 ≤ P }
        ensures no_records { HoldsNoRow 2 result.records }
        ensures no_positions { HoldsNoRow 1 result.positions }
    {
        Tables {
            records: printing::no_rows(RECORDS_HEADER),
            positions: printing::no_rows(POSITIONS_HEADER),
        }
    }

    fn answer<W: Write>(&self, out: &mut W, r: Reply) -> io::Result<()> {
        showing::reply(out, r)?;
        showing::tables(out, &self.records, &self.positions)
    }

    pub fn trade<W: Write>(&mut self, out: &mut W, figures: [i64; 6]) -> io::Result<()> {
        showing::request(out, b"trade", &figures, &[])?;
        let [id, account, series, side, quantity, price] = figures;
        let r = book::trade(
            &mut self.records,
            &mut self.positions,
            id,
            account,
            series,
            side,
            quantity,
            price,
        );
        self.answer(out, r)
    }

    pub fn trades<W: Write>(
        &mut self,
        out: &mut W,
        figures: &[i64],
        excess: &mut [i64],
    ) -> io::Result<()> {
        showing::request(out, b"batch", &[], figures)?;
        let r = book::trades(
            &mut self.records,
            &mut self.positions,
            figures,
            &mut *excess,
        );
        showing::reply(out, r)?;
        showing::excesses(out, excess)?;
        showing::tables(out, &self.records, &self.positions)
    }

    pub fn separate<W: Write>(
        &mut self,
        out: &mut W,
        figures: [i64; 4],
        parts: &[i64],
    ) -> io::Result<()> {
        showing::request(out, b"separation", &figures, parts)?;
        let [id, suffix, account, series] = figures;
        let r = book::separate(
            &mut self.records,
            &mut self.positions,
            id,
            suffix,
            account,
            series,
            parts,
        );
        self.answer(out, r)
    }

    pub fn transfer<W: Write>(&mut self, out: &mut W, figures: [i64; 5]) -> io::Result<()> {
        showing::request(out, b"transfer", &figures, &[])?;
        let [id, suffix, from, to, series] = figures;
        let r = book::transfer(
            &mut self.records,
            &mut self.positions,
            id,
            suffix,
            from,
            to,
            series,
        );
        self.answer(out, r)
    }

    pub fn merge<W: Write>(
        &mut self,
        out: &mut W,
        figures: [i64; 3],
        pairs: &[i64],
    ) -> io::Result<()> {
        showing::request(out, b"merge", &figures, pairs)?;
        let [id, account, series] = figures;
        let r = book::merge(
            &mut self.records,
            &mut self.positions,
            id,
            account,
            series,
            pairs,
        );
        self.answer(out, r)
    }

    // It is lent no positions; they are shown as they stand.
    pub fn lineage<W: Write>(&self, out: &mut W, id: i64, suffix: i64) -> io::Result<()> {
        showing::request(out, b"lineage", &[id, suffix], &[])?;
        self.answer(out, book::lineage(&self.records, id, suffix))
    }
}
