// Each cell of a table damaged in turn.
ghost use Rattle.std.specs.Prelude.{◌≡◌, ◌<◌, length};

use std::io;
use std::io::Write;

// Whether the table is sound with 2,000,000,000,000 in one cell, which then gets its old number back.
fn one(all: &mut [i64], at: usize) -> bool
    requires { at < length all.old }
    ensures { all.new ≡ all.old }
{
    let old = all[at];
    all[at] = 2_000_000_000_000;
    let sound = scan::soundness::records_sound(all);
    all[at] = old;
    sound
}

pub fn each<W: Write>(to: &mut W, all: &mut [i64]) -> io::Result<()>
    ensures { all.new ≡ all.old }
{
    for at in 0..all.len() {
        if one(&mut *all, at) {
            writeln!(to, "sound with cell {at}")?;
        }
    }
    Ok(())
}
