// A line of a journal: its heading, its figures in two lists, one after the other, and the newline.
ghost use Rattle.std.specs.Prelude.{◌+◌, ◌*◌, ◌≤◌, ◌≡◌, ◌++◌, length};
ghost use Rattle.text.specs.Scan.{first};
ghost use Rattle.text.specs.Written.{written};
ghost use Rattle.rules.specs.Line.{step_letter, heading_text, line_text};

use crate::fields;
use rules::{Heading, Step};

fn step_letter(step: Step) -> u8
    ensures { result ≡ step_letter step }
{
    step as u8
}

// The letter of the request's kind.
fn letter(heading: Heading) -> u8
    ensures { result ≡ first (heading_text heading) }
{
    match heading {
        Heading::Trade => b'T',
        Heading::Separation => b'S',
        Heading::Transfer => b'A',
        Heading::Merge => b'M',
        Heading::GiveUp(_) => b'G',
        Heading::Day => b'D',
    }
}

fn heading_width(heading: Heading) -> usize
    ensures { (result ≡ length (heading_text heading)) × (result ≤ 3) }
{
    match heading {
        Heading::GiveUp(_) => 3,
        _ => 1,
    }
}

// How many bytes a line takes.
pub fn line_width(heading: Heading, figures: &[i64], more: &[i64]) -> usize
    requires { (length figures.now ≤ 100000) × (length more.now ≤ 100000) }
    ensures { (result ≡ length (line_text heading (figures.now ++ more.now))) × (result ≤ 4 + 22 * (length figures.now + length more.now)) }
{
    heading_width(heading) + fields::fields_width(figures) + fields::fields_width(more) + 1
}

fn write_heading(text: &mut [u8], at: usize, heading: Heading) -> usize
    requires { at + length (heading_text heading) ≤ length text.old }
    ensures { (result ≡ at + length (heading_text heading)) × (text.new ≡ written (heading_text heading) at text.old) }
{
    let next = fields::write_byte(&mut *text, at, letter(heading));
    let Heading::GiveUp(step) = heading else {
        return next;
    };
    let after = fields::write_byte(&mut *text, next, b'\t');
    fields::write_byte(text, after, step_letter(step))
}

// Answers the place after the line.
pub fn write_line(
    text: &mut [u8],
    at: usize,
    heading: Heading,
    figures: &[i64],
    more: &[i64],
) -> usize
    requires { at + length (line_text heading (figures.now ++ more.now)) ≤ length text.old }
    ensures { (result ≡ at + length (line_text heading (figures.now ++ more.now))) × (text.new ≡ written (line_text heading (figures.now ++ more.now)) at text.old) }
{
    let first = write_heading(&mut *text, at, heading);
    let second = fields::write_fields(&mut *text, first, figures);
    let end = fields::write_fields(&mut *text, second, more);
    fields::write_byte(text, end, b'\n')
}
