// Rows added and changed where the tables and the row allow it: each answers whether it was.
ghost use Rattle.std.specs.Prelude.{◌<◌, ◌≤◌, ◌^◌};

use lookup::{Absent, Present};
use rules::codes::ADJUSTED;
use rules::{Position, Record};
use scan::soundness as scanned;
use std::io;
use std::io::Write;
use tables::{positions, records};

// Says whether a row was added or changed.
pub fn tell<W: Write>(to: &mut W, done: bool) -> io::Result<()> {
    let said = if done { "done" } else { "refused" };
    printing::line(to, said.as_bytes())
}

// An original record of this key and price, with a quantity of 1.
fn original(id: i64, suffix: i64, price: i64) -> Record {
    let (status, quantity) = if 0 < suffix { (2, -1) } else { (0, 1) };
    Record {
        id,
        suffix,
        parent: 0,
        kind: 0,
        status,
        account: 1,
        series: 1,
        side: 1,
        quantity,
        price,
        long: 1,
        short: 0,
        into: 0,
        day: 0,
    }
}

#[tactic(auto, using(crate::proofs::Looked::rows_sound))]
pub fn record(cells: &mut [i64], id: i64, suffix: i64, price: i64) -> bool {
    let r = original(id, suffix, price);
    if !scanned::records_sound(cells) || !scanned::sound_record(r) {
        return false;
    }
    let Err(Absent { place, .. }) = records::look_up(cells, r.id, r.suffix) else {
        return false;
    };
    if records::room(cells) <= records::count(cells) {
        return false;
    }
    records::insert_record(cells, place, r);
    true
}

// Records of the ids from `top` down to 1, as long as there is room; answers how many.
pub fn down(cells: &mut [i64], top: usize) -> usize
    requires { top < 2 ^ 63 }
    ensures { result ≤ top }
{
    let mut done = 0;
    for id in (1..=top).rev() {
        if record(&mut *cells, id as i64, 0, 1) {
            done += 1;
        }
    }
    done
}

#[tactic(auto, using(crate::proofs::Looked::rows_sound))]
pub fn adjust(cells: &mut [i64], id: i64, suffix: i64) -> bool {
    if !scanned::records_sound(cells) {
        return false;
    }
    let Ok(Present { row, .. }) = records::look_up(cells, id, suffix) else {
        return false;
    };
    let r = records::read_record(cells, row);
    if r.status != 0 {
        return false;
    }
    records::set_status(cells, row, ADJUSTED);
    true
}

// The seven figures of a row, in a row's order: a `Position` would have each call name them all.
pub fn position(
    cells: &mut [i64],
    account: i64,
    series: i64,
    long: i64,
    short: i64,
    cash: i64,
    quantity: i64,
    value: i64,
) -> bool {
    let p = Position {
        account,
        series,
        long,
        short,
        cash,
        quantity,
        value,
    };
    if !scanned::positions_sound(cells) || !scanned::sound_position(p) {
        return false;
    }
    let found = positions::find_position(cells, account, series);
    if found.is_err() && positions::room(cells) <= positions::count(cells) {
        return false;
    }
    positions::write_position(cells, found, p);
    true
}
