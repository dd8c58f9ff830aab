// The rows of the lent tables, the steps and stages of a give-up, and the answer to a request. What documents 01 and 02 say of them stands in specs/; this crate books nothing.
#![tactic(auto)]

pub mod codes; // status, type, limits
pub mod layout; // header, width and room of the tables
pub mod numbers; // letters of steps, numbers of stages
pub mod refusals; // why a request is refused

// A row of the records table: one transaction record. Its key is the id, then the suffix.
#[derive(Clone, Copy)]
pub struct Record {
    pub id: i64,
    pub suffix: i64,
    pub parent: i64,
    // What document 01 calls the type: 0, 4, 6, 10 or 901; with document 02 also 20 and 30.
    pub kind: i64,
    pub status: i64,
    pub account: i64,
    pub series: i64,
    // The side code: 1 buy open, 2 sell open, 3 buy close, 4 sell close.
    pub side: i64,
    pub quantity: i64,
    pub price: i64,
    // What this row booked to the position's long and short.
    pub long: i64,
    pub short: i64,
    // The id that the source was merged into, in the inverse rows of a merge; otherwise 0.
    pub into: i64,
    // The day of booking (document 02, K8).
    pub day: i64,
}

// A row of the positions table. Its key is the account, then the series.
#[derive(Clone, Copy)]
pub struct Position {
    pub account: i64,
    pub series: i64,
    pub long: i64,
    pub short: i64,
    pub cash: i64,
    // The signed quantity of its records of status 0 or 3, and that times the price (document 02, K7).
    pub quantity: i64,
    pub value: i64,
}

// A row of the process table: one give-up. Its key is the process id, then the id of the transaction that it names.
#[derive(Clone, Copy)]
pub struct ProcessRow {
    pub process: i64,
    pub id: i64,
    pub suffix: i64,
    pub giving: i64,
    pub taking: i64,
    pub series: i64,
    // The approvals of the giver's and of the taker's clearing member, 0 or 1.
    pub giver: i64,
    pub taker: i64,
    // The stage's number.
    pub stage: i64,
}

// How far a give-up has come, by the numbers of the process table.
#[derive(Clone, Copy, Debug, PartialEq, Eq)]
pub enum Stage {
    Pending = 6,
    Claimed = 9,
    Refused = 10,
    Cancelled = 12,
    Done = 0,
}

// The process of a give-up by value, its stage told apart.
#[derive(Clone, Copy)]
pub struct Process {
    pub process: i64,
    pub id: i64,
    pub suffix: i64,
    pub giving: i64,
    pub taking: i64,
    pub series: i64,
    pub giver: i64,
    pub taker: i64,
    pub stage: Stage,
}

// The steps of a give-up, by their letters in a journal.
#[derive(Clone, Copy, Debug, PartialEq, Eq)]
pub enum Step {
    Open = 79,
    Claim = 67,
    Cancel = 88,
    Refuse = 82,
    ApproveGiver = 71,
    ApproveTaker = 84,
}

// What stands before the figures of a line of a journal: the letter of the request's kind, and of a step of a give-up also the step's.
#[derive(Clone, Copy)]
pub enum Heading {
    Trade,
    Separation,
    Transfer,
    Merge,
    GiveUp(Step),
    Day,
}

// What a request changes in a position.
#[derive(Clone, Copy)]
pub struct Movement {
    pub long: i64,
    pub short: i64,
    pub cash: i64,
    pub quantity: i64,
    pub value: i64,
}

// The answer to a request.
#[derive(Clone, Copy)]
pub enum Reply {
    Booked {
        rows: i64,
        residual: i64,
    },
    ClosingError {
        excess: i64,
    },
    Lineage {
        price: i64,
        links: i64,
    },
    // The number of the first refusal that applies, then its place.
    Refused(i64, i64),
    // A batch that stopped: how many trades it booked, and the refusal of the next, its number and place.
    Stopped {
        booked: i64,
        number: i64,
        place: i64,
    },
    // Lines of a journal written to a buffer: how many bytes.
    Written(i64),
    // A text replayed to its end: how many lines, each of them booked.
    Replayed(i64),
    // A text replayed up to a line, counted from 1, that is no line of a request.
    BadLine(i64),
    // A text replayed up to a line, counted from 1, whose request is refused: the line, then the refusal's number and place.
    LineRefused(i64, i64, i64),
    // The end-of-day reporting list: how many records.
    Listed(i64),
}
