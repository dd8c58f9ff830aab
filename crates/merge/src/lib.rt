// Merge on sound tables: tests 3 to 11 and 13 to 16, the booking, and the call that joins them.
#![tactic(auto)]

pub mod sources; // the sources in the records table: tests 5 to 8, 10, 11 and 13, and the sums
pub mod booking; // the changes of an accepted merge
pub mod call; // the verdict, and the call that joins it with the booking
