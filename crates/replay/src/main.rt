// Reruns a day (document 02, K5): replays the journal that its argument names into empty tables with room for 400 records, 100 positions and 100 processes, and prints all rows, records, positions and
// processes in that order, cells parted by tabs. Where a line is bad or refused it prints that line's number alone, and says on the error output which it is. The replay is `book::replay`, proved; of what
// is read and printed the contracts say what they can name, the bytes of a reader and a writer.
#![tactic(auto)]

ghost use Rattle.std.specs.Prelude.{◌≡◌, ◌<◌, length};
ghost use Rattle.std.specs.Io.KnownBytes.{ReadConsumes};
ghost use Rattle.replay.specs.WithinText.{WithinText, ReadsStart};

use rules::{Reply, layout};
use std::env::FillError;
use std::io::{Read, Write};
use std::rt::Env;
use std::{fs, io};

// Cells of the tables.
const RECORDS: usize = layout::RECORDS_HEADER + 400 * layout::RECORD_WIDTH;

const POSITIONS: usize = layout::POSITIONS_HEADER + 100 * layout::POSITION_WIDTH;

const PROCESSES: usize = layout::PROCESSES_HEADER + 100 * layout::PROCESS_WIDTH;

// Bytes of a text: what a file has beyond them is not read. A journal that is booked whole in this room has at most 827,286:
// - 788,886 of days, which rise from 1 to 99,999, a line each;
// - 19,600 of requests that add records. There are at most 400, and a line has at most 49 bytes for each that it adds, a trade's;
// - 18,800 of give-ups. There are at most 100 processes, each has at most four lines, those of the opening, the claim and two approvals, and a line has at most 47 bytes.
// So in a longer file a line is not booked, and the first such begins within these bytes. Where it is good it has at most 16,024, those of a merge of 1,000 sources, and ends before what is read does. Where it
// is bad it stays bad, since a line is read without a look at what follows it. Either way the line that is named is that of the whole file.
const TEXT: usize = 1_048_576;

// Bytes of a path, as many as the system takes.
const PATH: usize = 4096;

// Zeros, for the bytes of a file. It promises their number, so that nothing else has to count them.
fn buffer() -> [u8; TEXT]
    ensures { 1048576 ≡ length result }
{
    [0; TEXT]
}

// Reads once. What is read is within the text.
fn read_part<R: Read>(from: &mut R, text: &mut [u8]) -> io::Result<usize>
    ensures within { WithinText result text.new }
    ensures bytes { ReadConsumes (R.remaining from.old) (R.remaining from.new) result text.new }
{
    from.read(text)
}

// Reads until the file ends or the text is full. The loop stays: without a heap no library method reads a file of unknown length.
fn read_file<R: Read>(from: &mut R, text: &mut [u8]) -> io::Result<usize>
    ensures within { WithinText result text.new }
    ensures start { ReadsStart (R.remaining from.old) result text.new }
{
    let mut at = 0;
    while at < text.len() {
        let more = read_part(from, &mut text[at..])?;
        if more == 0 {
            return Ok(at);
        }
        at += more;
    }
    Ok(at)
}

// A row: its cells, a tab before each but the first.
fn print_row<W: Write>(to: &mut W, cells: &[i64]) -> io::Result<()> {
    for (i, z) in cells.iter().enumerate() {
        let tab = if i == 0 { "" } else { "\t" };
        write!(to, "{tab}{z}")?;
    }
    printing::text(to, b"\n")
}

// The rows that the table's count names, as far as there are cells.
fn print_rows<W: Write>(to: &mut W, count: i64, rows: &[i64], width: usize) -> io::Result<()>
    requires { 0 < width }
{
    let Ok(count) = usize::try_from(count) else {
        return Ok(());
    };
    for row in rows.chunks_exact(width).take(count) {
        print_row(to, row)?;
    }
    Ok(())
}

fn replay<W: Write, E: Write>(out: &mut W, err: &mut E, text: &[u8]) -> io::Result<()> {
    let mut records = [0i64; RECORDS];
    let mut positions = [0i64; POSITIONS];
    let mut processes = [0i64; PROCESSES];
    match book::replay(&mut records, &mut positions, &mut processes, text) {
        Reply::Replayed(_) => {
            let record_rows = &records[layout::RECORDS_HEADER..];
            let position_rows = &positions[layout::POSITIONS_HEADER..];
            let process_rows = &processes[layout::PROCESSES_HEADER..];
            print_rows(out, records[0], record_rows, layout::RECORD_WIDTH)?;
            print_rows(out, positions[0], position_rows, layout::POSITION_WIDTH)?;
            print_rows(out, processes[0], process_rows, layout::PROCESS_WIDTH)
        }
        // The reason is said even where the line could not be printed.
        Reply::BadLine(line) => {
            let printed = writeln!(out, "{line}");
            writeln!(
                err,
                "replay: line {line} is bad: it is no line of a request"
            )?;
            printed
        }
        Reply::LineRefused(line, number, place) => {
            let printed = writeln!(out, "{line}");
            writeln!(
                err,
                "replay: line {line} is refused: number {number}, place {place}"
            )?;
            printed
        }
        _ => printing::text(err, b"replay: no answer of a replay\n"),
    }
}

// The text is a local: the program takes some 1,200,000 bytes of stack.
fn replay_file<R: Read, W: Write, E: Write>(
    from: &mut R,
    path: &str,
    out: &mut W,
    err: &mut E,
) -> io::Result<()> {
    let mut text = buffer();
    match read_file(from, &mut text) {
        Ok(n) => replay(out, err, &text[..n]),
        Err(e) => writeln!(err, "replay: can't read {path}: {e}"),
    }
}

// Whether there is an argument of this number; the program's name is number 0.
fn has_argument(env: &impl Env, i: usize) -> bool {
    let mut start = [0u8; 1];
    !matches!(env.arg(i, &mut start), Err(FillError::NotPresent))
}

fn main(rt: HostRuntime) -> io::Result<()> {
    let mut out = io::writer(&rt);
    let mut err = rt.stderr();
    if !has_argument(&rt, 1) || has_argument(&rt, 2) {
        return printing::text(&mut err, b"usage: replay JOURNAL\n");
    }
    let mut name = [0u8; PATH];
    let Ok(n) = rt.arg(1, &mut name) else {
        return printing::text(
            &mut err,
            b"replay: can't take the journal's name: File name too long\n",
        );
    };
    let Ok(path) = str::from_utf8(&name[..n]) else {
        return printing::text(
            &mut err,
            b"replay: can't take the journal's name: it is no UTF-8\n",
        );
    };
    match fs::open(&rt, path) {
        Ok(mut file) => replay_file(&mut file, path, &mut out, &mut err),
        Err(e) => writeln!(err, "replay: can't open {path}: {e}"),
    }
}
