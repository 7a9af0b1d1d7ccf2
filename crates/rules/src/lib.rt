// The lock's rules for one claimant: its record goes in and comes back with one call done, beside the one register value
// that it read. Records, calls, registers and their fields have document 01's names.
#![tactic(auto)]

mod answers;
mod check;
mod look;
mod order;
mod steps;
mod turns;

pub use order::conflict;

// A claimant's record, in the order of a packed row. Session, Choosing and Token are shared; the rest is its own. Place and Choosing
// are numbers, and no `Place` and no `bool`, since a lent table may hold any: a record that no rule leaves is broken. `want` is the
// session asked for, `other` the row looked at, `seen` the largest token read so far; 0 is 01's none.
#[derive(Clone, Copy)]
pub struct Claimant {
    pub place: u8,
    pub choosing: u8,
    pub session: u16,
    pub token: u32,
    pub want: u16,
    pub other: u8,
    pub seen: u32,
}

// The places, in the order of 01's numbers. A number over 12 is `Nowhere`, and no error, so that one match covers every record.
#[derive(Clone, Copy, Debug, PartialEq, Eq)]
pub enum Place {
    Rest,
    Sign,
    Raise,
    Scan,
    Take,
    Lower,
    SeeChoosing,
    SeeSession,
    SeeToken,
    SeeAgain,
    Inside,
    DropToken,
    DropSession,
    Nowhere,
}

// What all claimants of a table agree on, given with each call.
#[derive(Clone, Copy)]
pub struct Terms {
    pub ceiling: u32,
}

// What a rule is told of the table: how many rows it has, and the terms.
#[derive(Clone, Copy)]
pub struct Board {
    pub n: usize,
    pub terms: Terms,
}

// A call of claimant `who`.
#[derive(Clone, Copy)]
pub enum Call {
    Ask { who: u32, session: u16 },
    Step { who: u32 },
    Leave { who: u32 },
}

// 01's list of refusals, under its numbers. No `Display`: what is printed and answered is the number.
#[derive(Clone, Copy, Debug, PartialEq, Eq)]
pub enum Refusal {
    RowCount = 1,
    NoCeiling = 2,
    Broken = 3,
    NoClaimant = 4,
    NoSession = 5,
    NotAtRest = 6,
    NotInside = 7,
    NoStep = 8,
    NoCall = 9,
    NoRoom = 10,
    TooLong = 11,
    BadLine = 12,
    TooManyLines = 13,
}

// The number of the place reached, as the record has it, a turned-away take, or the refusal. No `Result`: two of the three cases
// refuse nothing, and 01's numbers and the theorems are over the three.
#[derive(Clone, Copy)]
pub enum Answer {
    Reached(u8),
    TurnedAway,
    Refused(Refusal),
}

// A record after a call, and the answer. A refused record is as it was.
#[derive(Clone, Copy)]
pub struct Turn {
    pub after: Claimant,
    pub answer: Answer,
}

// A register, and of which row.
#[derive(Clone, Copy)]
pub enum Register {
    Choosing(u8),
    Session(u8),
    Token(u8),
}

// What a field may hold: 0, or what 01 sets it to, or either.
#[derive(Clone, Copy)]
pub(crate) enum Kind {
    Zero,
    Set,
    ZeroOrSet,
}

// What each field may hold at one place.
#[derive(Clone, Copy)]
pub(crate) struct Row {
    pub session: Kind,
    pub want: Kind,
    pub choosing: Kind,
    pub token: Kind,
    pub other: Kind,
    pub seen: Kind,
}
