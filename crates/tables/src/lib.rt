// Code on the records and the positions: the rows found, read, added and changed. Every function equals a definition of the rules.
#![tactic(auto)]

pub mod records; // the records table, once it is sound
pub mod new_rows; // the rows that come out of a record, inserted together
pub mod positions; // the positions table, once it is sound
