// The writing calls of a journal (document 02, K5): each writes the lines of a request to the front of a lent buffer, and answers how many bytes it wrote. A request that fails test 3 is refused 3, then a buffer
// that is too short 14; a refusal leaves the buffer as it was, and the bytes past what is written stay. No table is read.
#![tactic(auto)]

pub mod line; // one request, one line
pub mod trades; // a batch, a line for each trade
