// What `boardcase` prints, as bytes.
ghost use Rattle.std.specs.Prelude.{◌≡◌, ◌*◌, ◌≤◌, length};
ghost use Rattle.rules.specs.Answers.{refusal_number};
ghost use Rattle.casetext.specs.Writing.{Room, Wrote, Filled};
ghost use Rattle.casetext.specs.Reading.Said.{accepted};
ghost use Rattle.casetext.specs.Report.{entry_text, refusal_text, run_text, said_text, reported, report_row};

use crate::reader::{Draft, drafted};
use crate::sinks::Sink;
use crate::writing::Pen;
use crate::{Case, Fault};

impl Pen<'_> {
    // A do line's report. `left` begins with the five numbers that its entry left, as `store::trial` leaves them in one flat row.
    fn entry(&mut self, number: u32, entry: u32, left: &[u32])
        requires five_numbers { 5 ≤ length left.now }
        requires room { Room self.old (entry_text number entry left.now) }
        ensures { Wrote self.old (entry_text number entry left.now) self.new }
    {
        self.field(b"at=", number);
        // The claimant's part of the entry, as 01 makes it up.
        self.field(b" who=", entry / 65536 % 256);
        self.field(b" place=", left[0]);
        self.field(b" session=", left[1]);
        self.field(b" raised=", left[2]);
        self.field(b" token=", left[3]);
        self.line(b" answer=", left[4]);
    }
}

// The do lines' reports and the last line. Each entry left five numbers, in the one flat row that `trial` fills; its own number, and how
// many there are, are printed from 32 bits.
fn put_run(out: &mut [u8], entries: &[u32], left: &[u32]) -> usize
    requires few_entries { length entries.now ≤ 2048 }
    requires five_each { 5 * length entries.now ≤ length left.now }
    requires room { length (run_text entries.now left.now) ≤ length out.old }
    ensures { Filled out.old (run_text entries.now left.now) result out.new }
{
    let mut pen = Pen::new(out);
    for (i, entry) in entries.iter().enumerate() {
        pen.entry(i as u32 + 1, *entry, &left[5 * i..]);
    }
    pen.line(b"end=", entries.len() as u32);
    pen.written()
}

// The one line of a text or an opening that is refused.
fn put_refusal(out: &mut [u8], fault: Fault) -> usize
    requires line_bound { fault.line ≤ 2051 }
    requires room { length (refusal_text (refusal_number fault.refusal) fault.line) ≤ length out.old }
    ensures { Filled out.old (refusal_text (refusal_number fault.refusal) fault.line) result out.new }
{
    let mut pen = Pen::new(out);
    pen.field(b"refused=", u8::from(fault.refusal) as u32);
    pen.line(b" line=", fault.line as u32);
    pen.written()
}

// What a case with these entries prints, with room for N numbers that its entries leave: one flat row, as `trial` wants it.
fn put_trial<const N: usize>(out: &mut [u8], case: Case, entries: &Draft) -> usize
    requires few_numbers { N ≤ 10240 }
    requires five_each { 5 * length entries.now.items ≤ N }
    requires room { length (said_text (accepted case.claimants case.ceiling entries.now.items)) ≤ length out.old }
    ensures { Filled out.old (said_text (accepted case.claimants case.ceiling entries.now.items)) result out.new }
{
    let entries = entries.as_slice();
    let mut left = [0u32; N];
    match store::trial(case.claimants, case.ceiling, entries, &mut left) {
        Ok(()) => put_run(out, entries, &left),
        // Refusal 1 of the opening is of line 1, and 2 of line 2.
        Err(refusal) => put_refusal(out, Fault::at(refusal, u8::from(refusal) as usize)),
    }
}

// What a case with these entries prints. A short one isn't made to wait for room that only the longest needs: five numbers for each of
// 12 entries, of 128, or of 2,048.
fn put_case(out: &mut [u8], case: Case, entries: &Draft) -> usize
    requires { length (said_text (accepted case.claimants case.ceiling entries.now.items)) ≤ length out.old }
    ensures { Filled out.old (said_text (accepted case.claimants case.ceiling entries.now.items)) result out.new }
{
    match entries.len() {
        0..=12 => put_trial::<60>(out, case, entries),
        13..=128 => put_trial::<640>(out, case, entries),
        _ => put_trial::<10240>(out, case, entries),
    }
}

// Writes all that `boardcase` prints of a text into a lent row, whose later bytes stay. A row that some report would not fit is
// left as it was, whatever the text.
pub fn report(text: &[u8], out: &mut [u8]) -> Option<usize>
    ensures { (result ≡ reported out.old text.now) × (out.new ≡ report_row out.old text.now) }
{
    if out.len() < 153609 {
        return None;
    }
    let mut draft = Draft::new();
    let bytes = match drafted(text, &mut draft) {
        Ok(case) => put_case(out, case, &draft),
        Err(fault) => put_refusal(out, fault),
    };
    Some(bytes)
}
