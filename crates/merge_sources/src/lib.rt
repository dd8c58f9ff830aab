// The sources of a merge: the list of pairs that it names, and the laws of what the records table has of them.
#![tactic(auto)]

pub mod pairs; // the list of pairs: test 3, test 9, how often an id stood earlier

// What is kept of a source once it is looked up: its row number, and the greatest suffix of its id.
#[derive(Clone, Copy)]
pub struct Source {
    pub row: u16,
    pub suffix: u16,
}
