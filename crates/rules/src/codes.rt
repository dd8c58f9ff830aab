// The codes of a record, and limits that tests name: the numbers of specs/Figures.antt. Promises speak by those, so that a number here which differs is refused.

// Status of a record.
pub const ADJUSTABLE: i64 = 0;

pub const ADJUSTED: i64 = 1;

pub const INVERSE: i64 = 2;

pub const UNDER_GIVE_UP: i64 = 3;

// Type of a record.
pub const ORIGINAL: i64 = 0;

pub const TRANSFER: i64 = 4;

pub const SEPARATION: i64 = 6;

pub const CLOSING_ERROR: i64 = 10;

pub const GIVE_UP: i64 = 20;

pub const TAKE_UP: i64 = 30;

pub const MERGE: i64 = 901;

// Stage of a process.
pub const PENDING: i64 = 6;

pub const CLAIMED: i64 = 9;

pub const REFUSED: i64 = 10;

pub const CANCELLED: i64 = 12;

pub const DONE: i64 = 0;

// The greatest suffix, and the most that a record's quantity may be.
pub const GREATEST_SUFFIX: i64 = 65_535;

pub const MOST_QUANTITY: i64 = 1_000_000;

// The greatest day (document 02, K8).
pub const LAST_DAY: i64 = 99_999;
