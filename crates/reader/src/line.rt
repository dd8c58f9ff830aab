// A line of a journal: its heading, its figures and the newline.
ghost use Rattle.std.specs.Prelude.{◌≡◌, length, drop};
ghost use Rattle.rules.specs.Reader.{take_step, take_heading};
ghost use Rattle.reader.specs.Read.{taken_as, LineReadAs};

use crate::{LineRead, Taken, fields};
use rules::{Heading, Step};

// After the letter G: a tab and the step's letter.
fn read_step(text: &[u8], at: usize) -> Option<Taken<Heading>>
    ensures { taken_as text.now result ≡ take_step (drop at text.now) }
{
    if fields::byte_at(text, at) != b'\t' {
        return None;
    }
    let step = Step::try_from(fields::byte_at(text, at + 1)).ok()?;
    Some(Taken {
        value: Heading::GiveUp(step),
        next: at + 2,
    })
}

fn read_heading(text: &[u8], at: usize) -> Option<Taken<Heading>>
    ensures { taken_as text.now result ≡ take_heading (drop at text.now) }
{
    let heading = match fields::byte_at(text, at) {
        b'T' => Heading::Trade,
        b'S' => Heading::Separation,
        b'A' => Heading::Transfer,
        b'M' => Heading::Merge,
        b'G' => return read_step(text, at + 1),
        b'D' => Heading::Day,
        _ => return None,
    };
    Some(Taken {
        value: heading,
        next: at + 1,
    })
}

// The figures lie in the lent cells from the first on; there must be as many cells as a line may have figures.
pub fn read_line(text: &[u8], at: usize, figures: &mut [i64]) -> Option<LineRead>
    requires { length figures.old ≡ 2003 }
    ensures { LineReadAs text.now at figures.new result }
{
    let headed = read_heading(text, at)?;
    let read = fields::read_fields(text, headed.next, figures);
    if fields::byte_at(text, read.next) != b'\n' {
        return None;
    }
    Some(LineRead {
        heading: headed.value,
        count: read.value,
        next: read.next + 1,
    })
}
