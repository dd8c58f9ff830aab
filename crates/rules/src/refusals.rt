// How a request ends: confirmed, or refused with a reason, by the numbers of documents 01 and 02, and its place.
ghost use Rattle.std.specs.Prelude.{◌≡◌, pos};
ghost use Rattle.rules.specs.Reasons.{number_of, refused_for, reply_of, confirmed_by, answer_of};
ghost use Rattle.rules.specs.declared.Reply.TheVariants.{Refused};

use crate::Reply;

#[derive(Clone, Copy, Debug, PartialEq, Eq)]
pub enum Reason {
    RecordsUnsound = 1,
    PositionsUnsound = 2,
    OutOfRange = 3,
    IdUsed = 4,
    NoRecord = 5,
    Elsewhere = 6,
    NotAdjustable = 7,
    ToClose = 8,
    Repeated = 9,
    OtherSide = 10,
    WrongSum = 11,
    HoldsTooLittle = 12,
    NoSuffix = 13,
    // Of records, and of bytes for a text.
    NoRoom = 14,
    NoPositionsRoom = 15,
    PositionOutOfRange = 16,
    UnderGiveUp = 17,
    OutOfTurn = 18,
    ProcessesUnsound = 19,
    NoProcessesRoom = 23,
}

// A reason by its number.
pub fn number(reason: Reason) -> i64
    ensures { result ≡ number_of reason }
{
    reason as i64
}

// The first refusal that applies, and its place in the list of sources: 0 but for a merge.
#[derive(Clone, Copy, Debug, PartialEq, Eq)]
pub struct Refusal {
    pub reason: Reason,
    pub place: i64,
}

impl From<Reason> for Refusal {
    ghost from_gives = { λ r e. e ≡ record { reason = r; place = pos 0 } };

    fn from(reason: Reason) -> Refusal {
        Refusal { reason, place: 0 }
    }
}

impl From<Reason> for Reply {
    ghost from_gives = { λ r a. a ≡ Refused (number_of r) (pos 0) };

    fn from(reason: Reason) -> Reply {
        Reply::Refused(number(reason), 0)
    }
}

impl From<Refusal> for Reply {
    ghost from_gives = { λ e r. r ≡ refused_for e };

    fn from(refusal: Refusal) -> Reply {
        Reply::Refused(number(refusal.reason), refusal.place)
    }
}

// What a request that is booked answers: no refusal is one of these.
#[derive(Clone, Copy, Debug, PartialEq, Eq)]
pub enum Confirmation {
    Booked { rows: i64, residual: i64 },
    ClosingError { excess: i64 },
}

impl From<Confirmation> for Reply {
    ghost from_gives = { λ c r. r ≡ confirmed_by c };

    fn from(confirmation: Confirmation) -> Reply {
        match confirmation {
            Confirmation::Booked { rows, residual } => Reply::Booked { rows, residual },
            Confirmation::ClosingError { excess } => Reply::ClosingError { excess },
        }
    }
}

// What a call that books answers.
pub fn answer(outcome: Result<Confirmation, Refusal>) -> Reply
    ensures { result ≡ answer_of outcome }
{
    match outcome {
        Ok(confirmation) => Reply::from(confirmation),
        Err(refusal) => Reply::from(refusal),
    }
}

// What a call answers that asks or lists.
pub fn reply(outcome: Result<Reply, Refusal>) -> Reply
    ensures { result ≡ reply_of outcome }
{
    match outcome {
        Ok(answer) => answer,
        Err(refusal) => Reply::from(refusal),
    }
}
