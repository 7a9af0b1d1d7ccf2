// The reader of case texts.
ghost use Rattle.std.specs.Prelude.{◌≡◌, []};
ghost use Rattle.casetext.specs.Reading.{do_lines, reading, read_into, told, Drafted, row_after};

use crate::cursor::Cursor;
use crate::spelling::{CEILING, CLAIMANTS};
use crate::{Case, Fault};
use arrayvec::ArrayVec;
use rules::Refusal;

// Room for the entries of one case.
pub(crate) type Draft = ArrayVec<u32, 2048>;

// The do lines from a place on, of a case with these two numbers: their entries go into a draft. Read at a place, as the
// definitions do, each byte once, and not cut into lines first. The draft is lent, since 8 KB would be moved as a result.
#[tactic(auto, using(crate::proofs::Gathering::gathering))]
fn do_lines(lines: Cursor, claimants: u32, ceiling: u32, draft: &mut Draft) -> Result<Case, Fault>
    requires { draft.old.items ≡ [] }
    ensures value { result ≡ told (do_lines claimants ceiling 2048 lines.entry.text.now lines.entry.at 3) }
    ensures drafted { Drafted (do_lines claimants ceiling 2048 lines.entry.text.now lines.entry.at 3) draft.new.items }
{
    let mut here = lines;
    while here.at < here.text.len() {
        let line = draft.len() + 3;
        let found = here.do_line().ok_or(Fault::at(Refusal::BadLine, line))?;
        if draft.try_push(found.value).is_err() {
            return Err(Fault::at(Refusal::TooManyLines, line));
        }
        here = here.to(found.next);
    }
    Ok(Case {
        claimants,
        ceiling,
        count: draft.len(),
    })
}

// A whole text, its entries into a draft.
#[tactic(auto, unfolding(crate::specs::Reading::reading))]
pub(crate) fn drafted(text: &[u8], draft: &mut Draft) -> Result<Case, Fault>
    requires { draft.old.items ≡ [] }
    ensures value { result ≡ told (reading text.now) }
    ensures drafted { Drafted (reading text.now) draft.new.items }
{
    if 32768 < text.len() {
        return Err(Fault::at(Refusal::TooLong, 0));
    }
    let first = Cursor { text, at: 0 };
    let claimants = first
        .line(&CLAIMANTS, u32::MAX)
        .ok_or(Fault::at(Refusal::BadLine, 1))?;
    let second = first.to(claimants.next);
    let ceiling = second
        .line(&CEILING, u32::MAX)
        .ok_or(Fault::at(Refusal::BadLine, 2))?;
    let third = first.to(ceiling.next);
    do_lines(third, claimants.value, ceiling.value, draft)
}

// Reads a case text into a lent row of entries. A refused text leaves the row as it was, so the entries are drafted apart first.
#[tactic(auto, unfolding(crate::specs::Reading::read_into))]
pub fn read(text: &[u8], entries: &mut [u32]) -> Result<Case, Fault>
    ensures { (result ≡ told (read_into entries.old text.now))
        × (entries.new ≡ row_after (read_into entries.old text.now) entries.old) }
{
    if entries.len() < 2048 {
        return Err(Fault::at(Refusal::NoRoom, 0));
    }
    let mut draft = Draft::new();
    let case = drafted(text, &mut draft)?;
    let count = draft.len();
    entries[..count].copy_from_slice(&draft.as_slice()[..count]);
    Ok(case)
}
