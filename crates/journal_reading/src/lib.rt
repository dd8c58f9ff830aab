// A line of a journal that names a request which passes test 3 (document 02, K5), read from a text. No table is read.
#![tactic(auto)]

pub mod request; // the request of the line from a place on
pub mod validity; // test 3 of the figures of a line
