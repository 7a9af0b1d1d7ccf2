// What an entry says, and what it does to its caller's record.
ghost use Rattle.std.specs.Prelude.{◌≡◌};
ghost use Rattle.rules.specs.Tables.{caller};
ghost use Rattle.store.specs.Entries.{row_at, caller_of, turn_on, turn_for};
ghost use Rattle.store.specs.Schedules.{decoded};

use crate::Barred;
use rules::{Answer, Board, Call, Claimant, Refusal, Turn};

// A 32-bit number: kind × 16,777,216 + claimant × 65,536 + session, which 01 has decoded by division and remainder. Kind 0 is step,
// 1 ask, 2 leave; only an ask has a session. No `TryFrom`: a `Call` is of `rules`, where nothing is known of schedules.
#[tactic(auto, unfolding(crate::specs::Schedules::decoded))]
pub fn decoded(entry: u32) -> Result<Call, Barred>
    ensures { result ≡ decoded entry }
{
    let who = entry / 65536 % 256;
    let session = (entry % 65536) as u16;
    let kind = entry / 16777216;
    // Most entries are steps, so one is looked for first; in one match the compiler tests for it last.
    if kind == 0 && session == 0 {
        return Ok(Call::Step { who });
    }
    match kind {
        1 => Ok(Call::Ask { who, session }),
        2 if session == 0 => Ok(Call::Leave { who }),
        _ => Err(Barred {
            who,
            refusal: Refusal::NoCall,
        }),
    }
}

// Who makes the entry's call, or would have made it.
pub(crate) fn caller_of(entry: Result<Call, Barred>) -> u32
    ensures { result ≡ caller_of entry }
{
    match entry {
        Ok(call) => caller(call),
        Err(barred) => barred.who,
    }
}

#[tactic(auto, unfolding(rules::specs::Tables::caller))]
pub(crate) fn caller(call: Call) -> u32
    ensures { result ≡ caller call }
{
    match call {
        Call::Ask { who, .. } | Call::Step { who } | Call::Leave { who } => who,
    }
}

// What an entry does to its caller's record, given the one register value that this reads.
pub(crate) fn turn(entry: Result<Call, Barred>, board: Board, own: Claimant, value: u32) -> Turn
    ensures { result ≡ turn_for board.n board.terms entry own value }
{
    match entry {
        Ok(call) => turn_on(call, board, own, value),
        Err(barred) => Turn {
            after: own,
            answer: Answer::Refused(barred.refusal),
        },
    }
}

// The rule for the call. A match: a call of a new kind is left out nowhere.
fn turn_on(call: Call, board: Board, own: Claimant, value: u32) -> Turn
    ensures { result ≡ turn_on board.n board.terms call own value }
{
    match call {
        Call::Ask { who, session } => own.ask(board, who, value, session),
        Call::Step { who } => own.step(board, who, value),
        Call::Leave { who } => own.leave(board, who, value),
    }
}

// Where the record of a claimant stands in a row. Number 0 is nobody.
#[tactic(auto, unfolding(crate::specs::Entries::row_at))]
pub(crate) fn row_at(number: u32) -> Option<usize>
    ensures { result ≡ row_at number }
{
    (number as usize).checked_sub(1)
}
