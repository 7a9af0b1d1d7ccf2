// Reads a case text from standard input and prints what came of it.
#![tactic(auto)]

ghost use Rattle.std.specs.Prelude.{◌≡◌, ◌≤◌, ◌<◌, take, length, IfOk, OnOk, IfSome};
ghost use Rattle.std.specs.Io.KnownBytes.{Appends, Consumes, IsAtEnd};
ghost use Rattle.casetext.specs.Report.{printed};

use std::io;
use std::io::{Read, Write};

// Reads until the row is full or the input ends, and gives how many bytes it put at the row's start. By hand: `read_exact` refuses an
// input that ends, and what this promises of an input's end, and the edit that tries it, stand in this loop.
#[tactic(auto, using(crate::proofs::Filling::consumes_more))]
fn read_full<R: Read>(input: &mut R, row: &mut [u8]) -> io::Result<usize>
    ensures within { IfOk result (λ n. n ≤ length row.new) }
    ensures taken { IfOk result (λ n. Consumes (R.remaining input.old) (R.remaining input.new) (take n row.new)) }
    ensures ended { IfOk result (λ n. n < length row.new → IsAtEnd (R.remaining input.new)) }
{
    let mut length = 0;
    while length < row.len() {
        let bytes = input.read(&mut row[length..])?;
        if bytes == 0 {
            break;
        }
        length += bytes;
    }
    Ok(length)
}

// Reads a case text and writes what came of it. Where the reader's bytes and the writer's are known, the writer has then what is
// printed of all that the reader had. The row has a byte more than a text may have, so that one that is too long is seen to be. Both
// are rows: `read_full` fills one, and `report` is lent one, as from C.
fn answer<R: Read, W: Write>(input: &mut R, output: &mut W) -> io::Result<()>
    ensures { OnOk result (IfSome (R.remaining input.old)
        (λ text. Appends (W.contents output.old) (W.contents output.new) (printed text))) }
{
    let mut text = [0u8; 32769];
    let length = read_full(input, &mut text)?;
    // Every report fits this row.
    let mut out = [0u8; 153609];
    if let Some(bytes) = casetext::report(&text[..length], &mut out) {
        output.write_all(&out[..bytes])?;
    }
    Ok(())
}

fn main(rt: HostRuntime) -> io::Result<()> {
    answer(&mut rt.stdin(), &mut rt.stdout())
}
