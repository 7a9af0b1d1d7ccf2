// Runs the situations at the limits of document 01 through the reader and the report: N = 64 and 65, texts of 32,768 and 32,769
// bytes, 2,048 and 2,049 do lines. Of each it prints the text's length, what the reader gives back, the report's length, and the
// report's last three lines; the report of a refusal is one line. The texts are built here, so that nothing but the limits differs.
// Then the writer's limit: a text of 32,768 bytes, and one of 32,769.
#![tactic(auto)]

ghost use Rattle.std.specs.Prelude.{◌≤◌, length};

use arrayvec::ArrayVec;
use casetext::Fault;
use std::io;
use std::io::Write;

// There is room for a byte more than the longest text has, so that its length isn't the room's.
type Text = ArrayVec<u8, 32770>;

// A text of a head, a line so many times, and a tail.
struct Situation {
    name: &'static str,
    head: &'static [u8],
    line: &'static [u8],
    times: usize,
    tail: &'static [u8],
}

const SITUATIONS: [Situation; 6] = [
    // 64 claimants, and one more. Claimant 64 of 64 is inside after 3 * 64 + 5 steps, and leaves.
    Situation {
        name: "N = 64",
        head: b"claimants=64\nceiling=1\ndo=ask 64 7\n",
        line: b"do=step 64\n",
        times: 197,
        tail: b"do=leave 64\n",
    },
    Situation {
        name: "N = 65",
        head: b"claimants=65\nceiling=1\ndo=ask 64 7\n",
        line: b"do=step 64\n",
        times: 197,
        tail: b"do=leave 64\n",
    },
    // The longest text, and one byte more. There is no claimant 10; the last line has claimant 1 sign.
    Situation {
        name: "32768 bytes",
        head: b"claimants=1\nceiling=10\ndo=ask 1 10000\n",
        line: b"do=ask 10 10000\n",
        times: 2045,
        tail: b"do=step 1\n",
    },
    Situation {
        name: "32769 bytes",
        head: b"claimants=1\nceiling=100\ndo=ask 1 10000\n",
        line: b"do=ask 10 10000\n",
        times: 2045,
        tail: b"do=step 1\n",
    },
    // The longest schedule, and one entry more. Claimant 1 is inside after 8 steps, where the later ones are refused, and leaves in
    // the last line.
    Situation {
        name: "2048 do lines",
        head: b"claimants=1\nceiling=1\ndo=ask 1 7\n",
        line: b"do=step 1\n",
        times: 2046,
        tail: b"do=leave 1\n",
    },
    Situation {
        name: "2049 do lines",
        head: b"claimants=1\nceiling=1\ndo=ask 1 7\n",
        line: b"do=step 1\n",
        times: 2047,
        tail: b"do=leave 1\n",
    },
];

impl Situation {
    // Writes the text, for which there is room. The room is lent, since 32 KB would be moved as a result.
    fn fill(&self, text: &mut Text) -> io::Result<()> {
        text.write_all(self.head)?;
        for _ in 0..self.times {
            text.write_all(self.line)?;
        }
        text.write_all(self.tail)
    }

    // A call of its own: taken into `main`, its rows would lie on the stack beside those of `tell_written`, 40 KB of them.
    #[inline(never)]
    fn tell(&self, rt: &impl Print) -> io::Result<()> {
        let mut text = Text::new();
        self.fill(&mut text)?;
        print!(rt; "{}: bytes={}", self.name, text.len())?;
        tell_reading(rt, &text)?;
        tell_report(rt, &text)
    }
}

// What the reader gives back. It is lent a row, as from C; so are the report and the writer below.
fn tell_reading(rt: &impl Print, text: &[u8]) -> io::Result<()> {
    let mut entries = [0u32; 2048];
    match casetext::read(text, &mut entries) {
        Ok(case) => {
            let (claimants, ceiling, count) = (case.claimants, case.ceiling, case.count);
            print!(rt; " read claimants={claimants} ceiling={ceiling} entries={count}")
        }
        Err(Fault { refusal, line }) => {
            print!(rt; " read refused={} line={line}", u8::from(refusal))
        }
    }
}

fn tell_report(rt: &impl Print, text: &[u8]) -> io::Result<()> {
    let mut out = [0u8; 153609];
    if let Some(bytes) = casetext::report(text, &mut out) {
        print!(rt; "; report bytes=")?;
        tell_end(rt, &out[..bytes])?;
    }
    Ok(())
}

// How long a report or a text is, and its last three lines, or all where there are no more.
fn tell_end(rt: &impl Print, bytes: &[u8]) -> io::Result<()> {
    println!(rt; "{} ending", bytes.len())?;
    let third = last_line(bytes);
    let second = last_line(&bytes[..third]);
    let first = last_line(&bytes[..second]);
    rt.write_all(&bytes[first..])
}

// Where the last line begins. The last byte may be its own end.
fn last_line(bytes: &[u8]) -> usize
    ensures { result ≤ length bytes.now }
{
    let Some((_, before)) = bytes.split_last() else {
        return 0;
    };
    match before.iter().rposition(|byte| *byte == b'\n') {
        Some(end) => end + 1,
        None => 0,
    }
}

// The entry of `do=ask 10 65535`, a line of 16 bytes.
const ASK: u32 = 0x010a_ffff;

// What the writer gives back for 2,046 of these entries.
#[tactic(auto, using(casetext::proofs::RoundTrips::written_within))]
fn tell_written(rt: &impl Print, name: &str, claimants: u32) -> io::Result<()> {
    let schedule = [ASK; 2046];
    // There is room for a byte more than the longest text has, so that its length isn't the row's.
    let mut out = [0u8; 32769];
    print!(rt; "{name}:")?;
    match casetext::write(claimants, u32::MAX, &schedule, &mut out) {
        Ok(bytes) => {
            print!(rt; " written bytes=")?;
            tell_end(rt, &out[..bytes])
        }
        Err(refusal) => println!(rt; " refused={}", u8::from(refusal)),
    }
}

fn main(rt: HostRuntime) -> io::Result<()> {
    for situation in &SITUATIONS {
        situation.tell(&rt)?;
    }
    // The longest text, and one byte more: the head of 64 claimants has 32 bytes, and that of 100 one more.
    tell_written(&rt, "32768 bytes", 64)?;
    tell_written(&rt, "32769 bytes", 100)
}
