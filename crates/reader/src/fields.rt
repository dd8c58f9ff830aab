// Numbers and fields taken off a text, from a place on. No function asks where the place lies: past the end of the text there is no digit, no tab and no newline.
ghost use Rattle.std.specs.Prelude.{◌<◌, ◌≤◌, ◌≡◌, length, get_or, drop};
ghost use Rattle.text.specs.Scan.{is_digit, more_digits, take_magnitude, take_number, take_field, take_fields};
ghost use Rattle.reader.specs.Read.{digits_as, taken_as, fields_as};

use crate::Taken;

// A number has at most 13 digits.
const MOST_MORE_DIGITS: usize = 12;

// The byte at a place, and 0 past the end.
pub fn byte_at(text: &[u8], at: usize) -> u8
    ensures { result ≡ get_or text.now at 0 }
{
    text.get(at).copied().unwrap_or(0)
}

#[tactic(auto, unfolding(text::specs::Scan::is_digit))]
fn is_digit(b: u8) -> bool
    ensures { result ≡ is_digit b }
{
    b.is_ascii_digit()
}

// The digits after a first one.
fn more_digits(text: &[u8], at: usize, first: u64) -> Taken<u64>
    requires { first < 10 }
    ensures { digits_as text.now result ≡ more_digits 12 first (drop at text.now) }
{
    let mut value = first;
    let mut next = at;
    for _ in 0..MOST_MORE_DIGITS {
        let b = byte_at(text, next);
        if !is_digit(b) {
            return Taken { value, next };
        }
        value = value * 10 + u64::from(b - b'0');
        next += 1;
    }
    Taken { value, next }
}

// A number without a sign.
fn read_magnitude(text: &[u8], at: usize) -> Option<Taken<u64>>
    ensures { taken_as text.now result ≡ take_magnitude (drop at text.now) }
{
    let b = byte_at(text, at);
    match b {
        b'0' => Some(Taken {
            value: 0,
            next: at + 1,
        }),
        b'1'..=b'9' => Some(more_digits(text, at + 1, u64::from(b - b'0'))),
        _ => None,
    }
}

pub fn read_number(text: &[u8], at: usize) -> Option<Taken<i64>>
    ensures { taken_as text.now result ≡ take_number (drop at text.now) }
{
    if byte_at(text, at) != b'-' {
        let Taken { value, next } = read_magnitude(text, at)?;
        return Some(Taken {
            value: value as i64,
            next,
        });
    }
    let Taken { value, next } = read_magnitude(text, at + 1)?;
    if value == 0 {
        return None;
    }
    Some(Taken {
        value: -(value as i64),
        next,
    })
}

// A tab and a number.
pub fn read_field(text: &[u8], at: usize) -> Option<Taken<i64>>
    ensures { taken_as text.now result ≡ take_field (drop at text.now) }
{
    if byte_at(text, at) != b'\t' {
        return None;
    }
    read_number(text, at + 1)
}

// Fields as long as there is one, at most as many as there are cells for them: their count.
pub fn read_fields(text: &[u8], at: usize, figures: &mut [i64]) -> Taken<usize>
    ensures { (fields_as text.now figures.new result ≡ take_fields (length figures.old) (drop at text.now)) × (result.value ≤ length figures.new) }
{
    // The count is the answer, so that enumerate would be no plainer.
    let mut count = 0;
    let mut next = at;
    for cell in figures.iter_mut() {
        let Some(field) = read_field(text, next) else {
            return Taken { value: count, next };
        };
        *cell = field.value;
        next = field.next;
        count += 1;
    }
    Taken { value: count, next }
}
