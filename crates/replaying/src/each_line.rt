// Every line of a text in turn, up to the first that is bad or refused.
ghost use Rattle.std.specs.Prelude.{◌≡◌, true, length};
ghost use Rattle.rules.specs.Handle.{answered_by};
ghost use Rattle.rules.specs.Replay.{handle_replay};
ghost use Rattle.rules.specs.Tables.{all_tables, sound_records, sound_positions, sound_processes};
ghost use Rattle.replaying.specs.Became.{became};
ghost use Rattle.replaying.specs.LineReplayed.{LineReplayed};
ghost use Rattle.replaying.specs.Unsound.{refused_at_once};

use crate::Unbooked;
use rules::Reply;
use rules::layout::MOST_FIGURES;
use rules::refusals::{self, Reason};

// The line from this place on: read, and its request booked.
fn replay_line(
    records: &mut [i64],
    positions: &mut [i64],
    processes: &mut [i64],
    passes2: bool,
    passes19: bool,
    text: &[u8],
    at: usize,
    figures: &mut [i64],
) -> Result<usize, Unbooked>
    requires { (sound_records records.old ≡ true) × (passes2 ≡ sound_positions positions.old) × (passes19 ≡ sound_processes processes.old) × (length figures.old ≡ 2003) }
    ensures { (LineReplayed (all_tables records.old positions.old processes.old) text.now at (became result) (all_tables records.new positions.new processes.new)) × (length figures.new ≡ 2003) }
{
    let Some(line) = journal_reading::request::read_request(text, at, &mut *figures) else {
        return Err(Unbooked::Bad);
    };
    journal_booking::book_line(
        records,
        positions,
        processes,
        passes2,
        passes19,
        line.heading,
        &figures[..line.count],
    )?;
    Ok(line.next)
}

// Every line, with cells for a line's figures.
fn replay_lines(
    records: &mut [i64],
    positions: &mut [i64],
    processes: &mut [i64],
    passes2: bool,
    passes19: bool,
    text: &[u8],
    figures: &mut [i64],
) -> Reply
    requires { (sound_records records.old ≡ true) × (passes2 ≡ sound_positions positions.old) × (passes19 ≡ sound_processes processes.old) × (length figures.old ≡ 2003) }
    ensures { answered_by result (all_tables records.new positions.new processes.new) ≡ handle_replay (all_tables records.old positions.old processes.old) text.now }
{
    let mut at = 0;
    let mut line: usize = 0;
    while at < text.len() {
        match replay_line(
            &mut *records,
            &mut *positions,
            &mut *processes,
            passes2,
            passes19,
            text,
            at,
            &mut *figures,
        ) {
            Err(Unbooked::Bad) => {
                let bad = (line + 1) as i64;
                return Reply::BadLine(bad);
            }
            Err(Unbooked::Refused(refusal)) => {
                let refused = (line + 1) as i64;
                let number = refusals::number(refusal.reason);
                return Reply::LineRefused(refused, number, refusal.place);
            }
            Ok(next) => at = next,
        }
        line += 1;
    }
    let lines = line as i64;
    Reply::Replayed(lines)
}

pub fn on_sound_records(
    records: &mut [i64],
    positions: &mut [i64],
    processes: &mut [i64],
    passes2: bool,
    passes19: bool,
    text: &[u8],
) -> Reply
    requires { (sound_records records.old ≡ true) × (passes2 ≡ sound_positions positions.old) × (passes19 ≡ sound_processes processes.old) }
    ensures { answered_by result (all_tables records.new positions.new processes.new) ≡ handle_replay (all_tables records.old positions.old processes.old) text.now }
{
    let mut figures = [0i64; MOST_FIGURES];
    replay_lines(
        records,
        positions,
        processes,
        passes2,
        passes19,
        text,
        &mut figures,
    )
}

// Where test 1 refuses every request: the first line decides.
fn first_line_refused(text: &[u8], figures: &mut [i64]) -> Reply
    requires { length figures.old ≡ 2003 }
    ensures { result ≡ refused_at_once text.now }
{
    if text.is_empty() {
        return Reply::Replayed(0);
    }
    match journal_reading::request::read_request(text, 0, figures) {
        None => Reply::BadLine(1),
        Some(_) => Reply::LineRefused(1, refusals::number(Reason::RecordsUnsound), 0),
    }
}

pub fn on_unsound_records(text: &[u8]) -> Reply
    ensures { result ≡ refused_at_once text.now }
{
    let mut figures = [0i64; MOST_FIGURES];
    first_line_refused(text, &mut figures)
}
