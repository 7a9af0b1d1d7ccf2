// The table, lent as a row of claimant records: open, call, run and standing. What decides is in functions by value
// (`entries`, `refusals`, `standings`, `traces`); a function over the row reads a record, calls those, and writes it back. 01 lends the
// rows and gives the terms with each call, so they are two parameters. A public contract is one equation for the result and all lent.
#![tactic(auto)]

ghost use Rattle.std.specs.Prelude.{◌≡◌, ◌*◌, ◌≤◌, ◌++◌, length, drop};
ghost use Rattle.rules.specs.Tables.{record_of, value_read, called, Sound};
ghost use Rattle.store.specs.Entries.{written, caller_of, turn_in};
ghost use Rattle.store.specs.Runs.{board_of, first_broken, lowest_broken, judged_of, open_refusal, opening, running};
ghost use Rattle.store.specs.Trials.{traced, trial_left, trial_outcome};
ghost use Rattle.store.specs.Standings.{standing_of};

mod entries;
mod refusals;
mod standings;
mod traces;

pub use entries::decoded;
use refusals::Judged;
use rules::{Answer, Board, Call, Claimant, Refusal, Register, Terms, Turn};
use standings::Claim;

// An entry that makes no call, or a call that its table bars: whom it names, and the refusal.
#[derive(Clone, Copy, Debug, PartialEq, Eq)]
pub struct Barred {
    pub who: u32,
    pub refusal: Refusal,
}

// What the rules are told of a table.
fn board_of(rows: &[Claimant], terms: Terms) -> Board
    ensures { result ≡ board_of terms rows.now }
{
    Board {
        n: rows.len(),
        terms,
    }
}

// The number of the lowest record that is not well-formed, from 1, if there is one.
pub fn lowest_broken(rows: &[Claimant], terms: Terms) -> Option<usize>
    ensures { result ≡ lowest_broken terms rows.now }
{
    let row = first_broken(rows, terms)?;
    Some(row + 1)
}

// Where the first record that is not well-formed stands, from 0. In one chain with the + 1 its goal stays open: past a `map` it isn't
// known what `position` gave.
fn first_broken(rows: &[Claimant], terms: Terms) -> Option<usize>
    ensures { result ≡ first_broken terms rows.now }
{
    let board = board_of(rows, terms);
    rows.iter().position(|record| !record.well_formed(board))
}

// What is found of a table before anything is done to it.
fn judged(rows: &[Claimant], terms: Terms) -> Judged
    ensures { result ≡ judged_of terms rows.now }
{
    Judged {
        board: board_of(rows, terms),
        broken: lowest_broken(rows, terms),
    }
}

// The record of claimant `number`, or a blank one where there is no such claimant: 01 says zeros of those.
#[tactic(auto, unfolding(crate::specs::Entries::row_at, rules::specs::Tables::record_of))]
fn record_of(rows: &[Claimant], number: u32) -> Claimant
    ensures { result ≡ record_of rows.now number }
{
    let Some(row) = entries::row_at(number) else {
        return Claimant::blank();
    };
    rows.get(row).copied().unwrap_or(Claimant::blank())
}

// The value that a claimant with this record reads in the table; 0 where it reads nothing.
#[tactic(auto, unfolding(rules::specs::Tables::value_read))]
fn value_read(rows: &[Claimant], own: Claimant) -> u32
    ensures { result ≡ value_read rows.now own }
{
    let read = own.reads();
    Register::value_of(read, record_of(rows, Register::row_of(read) as u32))
}

// The record of claimant `number` is written; nothing is where there is no such claimant. By an index: after a write through
// `get_mut` only the row's length is known.
#[tactic(auto, unfolding(crate::specs::Entries::written, crate::specs::Entries::row_at))]
fn write(rows: &mut [Claimant], number: u32, own: Claimant)
    ensures { rows.new ≡ written rows.old number own }
{
    if let Some(row) = entries::row_at(number)
        && row < rows.len()
    {
        rows[row] = own;
    }
}

// One entry, on a table that is judged already: it costs the record of its caller and the one that this looks at.
#[tactic(auto, unfolding(crate::specs::Entries::turn_in))]
fn enter(rows: &mut [Claimant], terms: Terms, entry: Result<Call, Barred>) -> Turn
    ensures { (rows.new ≡ written rows.old (caller_of entry) (turn_in terms entry rows.old).after)
        × (result ≡ turn_in terms entry rows.old) }
{
    let number = entries::caller_of(entry);
    let own = record_of(rows, number);
    let value = value_read(rows, own);
    let turn = entries::turn(entry, board_of(rows, terms), own, value);
    write(rows, number, turn.after);
    turn
}

// All fields of all records 0. A refused table stays as it was.
#[tactic(auto, unfolding(crate::specs::Runs::opening, rules::specs::Tables::opened))]
pub fn open(rows: &mut [Claimant], terms: Terms) -> Result<(), Refusal>
    ensures { (rows.new ≡ opening terms rows.old) × (result ≡ open_refusal (length rows.old) terms) }
{
    board_of(rows, terms).opens()?;
    rows.fill(Claimant::blank());
    Ok(())
}

// One call of any claimant number.
pub fn call(rows: &mut [Claimant], terms: Terms, call: Call) -> Answer
    ensures { (rows.new ≡ (called terms call rows.old).table)
        × (result ≡ (called terms call rows.old).answer) }
{
    let entry = judged(rows, terms).admits(call);
    enter(rows, terms, entry).answer
}

// The entries in order, one answer byte each. The table is judged once. By an index: with `zip` and `iter_mut`, which was tried, it
// isn't known what the answers hold in the end. `trace` goes the same way, and leaves other things in another row.
#[tactic(auto, unfolding(crate::specs::Schedules::ran, crate::specs::Schedules::answered), using(crate::proofs::Judging::run_sound))]
pub fn run(
    rows: &mut [Claimant],
    terms: Terms,
    schedule: &[u32],
    answers: &mut [u8],
) -> Result<(), Refusal>
    ensures { (rows.new ≡ (running terms schedule.now answers.old rows.old).rows)
        × (answers.new ≡ (running terms schedule.now answers.old rows.old).answers)
        × (result ≡ (running terms schedule.now answers.old rows.old).outcome) }
{
    judged(rows, terms).runs(schedule.len(), answers.len())?;
    for (k, entry) in schedule.iter().enumerate() {
        answers[k] = enter(rows, terms, decoded(*entry)).answer.into();
    }
    Ok(())
}

// The standing of claimant a against claimant b. Negative: a goes first. 0: neither is in the other's way.
#[tactic(auto, unfolding(crate::specs::Standings::standing_of, crate::specs::Standings::standing_on), using(crate::proofs::Lowest::broken_is))]
pub fn standing(rows: &[Claimant], terms: Terms, a: u32, b: u32) -> Result<i64, Refusal>
    ensures { result ≡ standing_of terms a b rows.now }
{
    judged(rows, terms).compares(a, b)?;
    let first = Claim {
        number: a,
        record: record_of(rows, a),
    };
    let second = Claim {
        number: b,
        record: record_of(rows, b),
    };
    Ok(first.stands(second))
}

// A run that leaves five numbers for each entry: the claimant's place, Session, Choosing and Token after it, and the answer. By an
// index: of `chunks_exact_mut`, as of `iter_mut`, it isn't known what the row holds in the end. The numbers lie in one flat row, since
// that is what `trial` promises.
#[tactic(auto, unfolding(crate::specs::Schedules::ran, crate::specs::Trials::traced))]
fn trace(rows: &mut [Claimant], terms: Terms, schedule: &[u32], left: &mut [u32])
    requires sound { Sound (length rows.old) terms rows.old }
    requires room { 5 * length schedule.now ≤ length left.old }
    ensures { left.new ≡ traced terms schedule.now rows.old ++ drop (5 * length schedule.now) left.old }
{
    for (k, entry) in schedule.iter().enumerate() {
        let turn = enter(rows, terms, decoded(*entry));
        left[5 * k..5 * k + 5].copy_from_slice(&traces::five(turn));
    }
}

// A schedule run on a table of its own. It is what crates above call: they see no row of records, and give the two numbers as C has
// them. The records are the first of an array of 64 blank ones, as many as a table can have.
#[tactic(auto, unfolding(crate::specs::Trials::trial_left, crate::specs::Trials::trial_outcome), using(crate::proofs::Trying::opened_part))]
pub fn trial(
    claimants: u32,
    ceiling: u32,
    schedule: &[u32],
    left: &mut [u32],
) -> Result<(), Refusal>
    ensures { (left.new ≡ trial_left claimants ceiling schedule.now left.old)
        × (result ≡ trial_outcome claimants ceiling schedule.now left.old) }
{
    let terms = Terms { ceiling };
    let n = claimants as usize;
    refusals::trial(Board { n, terms }, schedule.len(), left.len())?;
    let mut rows = [Claimant::blank(); 64];
    trace(&mut rows[..n], terms, schedule, left);
    Ok(())
}
