// Lines of a journal written to a text of bytes (document 02, K5): numbers, fields, and a line of a heading, figures and a newline. What is written stands in `text` (Decimal, Fields) and `rules` (Line); each
// promise is an equation with it.
#![tactic(auto)]

pub mod fields; // numbers and fields, and how many bytes they take
pub mod line; // a line, and how many bytes it takes
