// What a caller in C or Rust gets of a case text, in plain numbers: it is read, written and reported. `colliemist_c` has the C symbols,
// since a crate is a library or a static library and not both.
#![tactic(auto)]

ghost use Rattle.std.specs.Prelude.{◌≡◌, ◌≤◌, pos, neg_ℤ};
ghost use Rattle.rules.specs.Answers.{refusal_number};
ghost use Rattle.casetext.specs.Answers.{reading_line};
ghost use Rattle.casetext.specs.Reading.{read_into, told, row_after};
ghost use Rattle.casetext.specs.Report.{reported, report_row};
ghost use Rattle.casetext.specs.Written.{written, written_row};
ghost use Rattle.colliemist.specs.Count.{counted, bytes_or, entries_or, claimants_or, ceiling_or};

use rules::Refusal;

// A count that no limit of document 01 lets pass 32,768: the cast is by hand, and its callers prove that it fits.
fn count(n: usize) -> i64
    requires { n ≤ 32768 }
    ensures { result ≡ pos n }
{
    n as i64
}

// A refusal as C has it: minus its number, which no count looks like. A cast of a line.
fn minus(refusal: Refusal) -> i64
    ensures { result ≡ neg_ℤ (pos (refusal_number refusal)) }
{
    0 - u8::from(refusal) as i64
}

// Writes the report of a case text into a lent row and gives its number of bytes, which is at least 1. A row of under 153,609
// bytes is left as it was, and the answer is 0.
pub fn colliemist_report(text: &[u8], out: &mut [u8]) -> u64
    ensures { (result ≡ counted (reported out.old text.now)) × (out.new ≡ report_row out.old text.now) }
{
    match casetext::report(text, out) {
        Some(bytes) => bytes as u64,
        None => 0,
    }
}

// Reads a case text: its entries into the first places of a lent row, and the two numbers; gives how many entries there are. Of a
// refused text it gives minus the refusal's number and leaves the row and the two numbers as they were. The line is the refusal's,
// and 0 where there is none.
#[tactic(auto, using(casetext::proofs::Readings::read_within))]
pub fn colliemist_read(
    text: &[u8],
    entries: &mut [u32],
    claimants: &mut u32,
    ceiling: &mut u32,
    line: &mut usize,
) -> i64
    ensures { (result ≡ entries_or (told (read_into entries.old text.now)))
        × (entries.new ≡ row_after (read_into entries.old text.now) entries.old)
        × (claimants.new ≡ claimants_or claimants.old (told (read_into entries.old text.now)))
        × (ceiling.new ≡ ceiling_or ceiling.old (told (read_into entries.old text.now)))
        × (line.new ≡ reading_line (told (read_into entries.old text.now))) }
{
    match casetext::read(text, entries) {
        Ok(case) => {
            *claimants = case.claimants;
            *ceiling = case.ceiling;
            *line = 0;
            count(case.count)
        }
        Err(fault) => {
            *line = fault.line;
            minus(fault.refusal)
        }
    }
}

// Writes the case text of a schedule into the first bytes of a lent row and gives how many they are. A refused schedule leaves the
// row as it was, and the answer is minus the refusal's number.
#[tactic(auto, using(casetext::proofs::RoundTrips::written_within))]
pub fn colliemist_write(claimants: u32, ceiling: u32, schedule: &[u32], out: &mut [u8]) -> i64
    ensures { (result ≡ bytes_or (written claimants ceiling schedule.now out.old))
        × (out.new ≡ written_row claimants ceiling schedule.now out.old) }
{
    match casetext::write(claimants, ceiling, schedule, out) {
        Ok(bytes) => count(bytes),
        Err(refusal) => minus(refusal),
    }
}
