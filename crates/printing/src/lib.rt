// Numbers and cells on a writer, and tables that hold no row, for the programs that show what the book does. Where the writer's bytes are known, each call that succeeds appends just its text.
#![tactic(auto)]

ghost use Rattle.std.specs.Prelude.{◌≡◌, ℕ, ◌<◌, ◌≤◌, pos, negsuc, get_or, OnOk};
ghost use Rattle.std.specs.Io.KnownBytes.{Appends};
ghost use Rattle.std.specs.Fmt.{signed_decimal};
ghost use Rattle.printing.specs.Printed.{line_text, value_text, cells_text};

use std::io;
use std::io::Write;

pub fn text<W: Write>(to: &mut W, bytes: &[u8]) -> io::Result<()>
    ensures { OnOk result (Appends (W.contents to.old) (W.contents to.new) bytes.now) }
{
    to.write_all(bytes)
}

pub fn line<W: Write>(to: &mut W, bytes: &[u8]) -> io::Result<()>
    ensures { OnOk result (Appends (W.contents to.old) (W.contents to.new) (line_text bytes.now)) }
{
    text(to, bytes)?;
    text(to, b"\n")
}

pub fn number<W: Write>(to: &mut W, z: i64) -> io::Result<()>
    ensures { OnOk result (Appends (W.contents to.old) (W.contents to.new) (signed_decimal z)) }
{
    write!(to, "{z}")
}

// A name, a number, and the end of the line.
pub fn value<W: Write>(to: &mut W, name: &[u8], z: i64) -> io::Result<()>
    ensures { OnOk result (Appends (W.contents to.old) (W.contents to.new) (value_text name.now z)) }
{
    text(to, name)?;
    number(to, z)?;
    text(to, b"\n")
}

// Cells with a bar between two, and the end of the line.
pub fn cells<W: Write>(to: &mut W, all: &[i64]) -> io::Result<()>
    ensures { OnOk result (Appends (W.contents to.old) (W.contents to.new) (cells_text all.now)) }
{
    for z in all {
        write!(to, "| {z} ")?;
    }
    writeln!(to, "|")
}

// A table that holds no row: a header of zeros, and -1 in each cell past it.
pub fn no_rows<const N: usize>(header: usize) -> [i64; N]
    requires { header ≤ N }
    ensures zeros { (k : ℕ) → k < N → k < header → get_or result k (pos 0) ≡ pos 0 }
    ensures rest { (k : ℕ) → k < N → header ≤ k → get_or result k (pos 0) ≡ negsuc 0 }
{
    let mut cells = [-1; N];
    cells[..header].fill(0);
    cells
}
