// A line that names a request, read from a text.
ghost use Rattle.std.specs.Prelude.{◌≡◌, length};
ghost use Rattle.journal_reading.specs.RequestRead.{RequestReadAs};

use reader::LineRead;

// The line from this place on, where it is one of a request that passes test 3; otherwise it is bad.
pub fn read_request(text: &[u8], at: usize, figures: &mut [i64]) -> Option<LineRead>
    requires { length figures.old ≡ 2003 }
    ensures { RequestReadAs text.now at figures.new result }
{
    let line = reader::line::read_line(text, at, &mut *figures)?;
    super::validity::line_valid(line.heading, &figures[..line.count]).then_some(line)
}
