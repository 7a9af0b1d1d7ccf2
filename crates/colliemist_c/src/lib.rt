// The C symbols: each calls `colliemist`'s function of its name, and says again what that promises. Twice, since a crate is a library or
// a static library and not both, and the theorems are about the library.
#![tactic(auto)]

ghost use Rattle.std.specs.Prelude.{◌≡◌};
ghost use Rattle.casetext.specs.Answers.{reading_line};
ghost use Rattle.casetext.specs.Reading.{read_into, told, row_after};
ghost use Rattle.casetext.specs.Report.{reported, report_row};
ghost use Rattle.casetext.specs.Written.{written, written_row};
ghost use Rattle.colliemist.specs.Count.{counted, bytes_or, entries_or, claimants_or, ceiling_or};

// Writes the report of a case text into a lent row and gives its number of bytes, which is at least 1. A row of under 153,609
// bytes is left as it was, and the answer is 0.
#[unsafe(no_mangle)]
pub extern "C" fn colliemist_report(text: &[u8], out: &mut [u8]) -> u64
    ensures { (result ≡ counted (reported out.old text.now)) × (out.new ≡ report_row out.old text.now) }
{
    colliemist::colliemist_report(text, out)
}

// Reads a case text: its entries into the first places of a lent row, and the two numbers; gives how many entries there are. Of a
// refused text it gives minus the refusal's number and leaves the row and the two numbers as they were. The line is the refusal's,
// and 0 where there is none.
#[unsafe(no_mangle)]
pub extern "C" fn colliemist_read(
    text: &[u8],
    entries: &mut [u32],
    claimants: &mut u32,
    ceiling: &mut u32,
    line: &mut usize,
) -> i64
    ensures { (result ≡ entries_or (told (read_into entries.old text.now)))
        × (entries.new ≡ row_after (read_into entries.old text.now) entries.old)
        × (claimants.new ≡ claimants_or claimants.old (told (read_into entries.old text.now)))
        × (ceiling.new ≡ ceiling_or ceiling.old (told (read_into entries.old text.now)))
        × (line.new ≡ reading_line (told (read_into entries.old text.now))) }
{
    colliemist::colliemist_read(text, entries, claimants, ceiling, line)
}

// Writes the case text of a schedule into the first bytes of a lent row and gives how many they are. A refused schedule leaves the
// row as it was, and the answer is minus the refusal's number.
#[unsafe(no_mangle)]
pub extern "C" fn colliemist_write(
    claimants: u32,
    ceiling: u32,
    schedule: &[u32],
    out: &mut [u8],
) -> i64
    ensures { (result ≡ bytes_or (written claimants ceiling schedule.now out.old))
        × (out.new ≡ written_row claimants ceiling schedule.now out.old) }
{
    colliemist::colliemist_write(claimants, ceiling, schedule, out)
}
