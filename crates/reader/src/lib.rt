// Lines of a journal read from a text of bytes (document 02, K5): numbers, fields, and a line's heading, figures and newline. What is read stands in `text` (Scan) and `rules` (Reader); each promise is an
// equation with it. No byte is read more than three times: the one after a figure is looked at as a further digit, as a tab and as the newline.
#![tactic(auto)]

use rules::Heading;

pub mod fields; // numbers and fields
pub mod line; // a heading, figures and a newline

// What was taken off a text, and the place after it.
#[derive(Clone, Copy)]
pub struct Taken<T> {
    pub value: T,
    pub next: usize,
}

// A line: its heading, how many figures it has, and the place after its newline.
#[derive(Clone, Copy)]
pub struct LineRead {
    pub heading: Heading,
    pub count: usize,
    pub next: usize,
}
