// A lent table scanned: its rows read, and tests 1, 2 and 19, of its soundness. Every function equals a definition of the rules.
#![tactic(auto)]

pub mod rows; // a row of any table: how it lies there, its key, when it is sound; a row's cells
pub mod soundness; // tests 1, 2 and 19
