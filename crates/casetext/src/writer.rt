// The writer of case texts.
ghost use Rattle.std.specs.Prelude.{◌≡◌, false};
ghost use Rattle.casetext.specs.Layout.{turn_text, do_text};
ghost use Rattle.casetext.specs.Written.{some_nine, schedule_text, written, written_row};

use crate::sinks::Sink;
use crate::sizes::Count;
use crate::spelling::{ASK, CEILING, CLAIMANTS, DO, LEAVE, SESSION, STEP};
use crate::writing::Pen;
use rules::{Call, Refusal};
use store::decoded;

// Whether refusal 9 names some entry.
fn barred(schedule: &[u32]) -> bool
    ensures { result ≡ some_nine schedule.now }
{
    schedule.iter().any(|entry| decoded(*entry).is_err())
}

// What stands after `do=`. A match: a call of a new kind is left out nowhere.
#[tactic(auto, unfolding(crate::specs::Layout::turn_text))]
fn turn<S: Sink>(sink: &mut S, call: Call)
    requires { S.room sink.old (turn_text call) }
    ensures { S.took sink.old (turn_text call) sink.new }
{
    match call {
        Call::Ask { who, session } => {
            sink.field(&ASK, who);
            sink.field(&SESSION, session as u32);
        }
        Call::Step { who } => sink.field(&STEP, who),
        Call::Leave { who } => sink.field(&LEAVE, who),
    }
}

// A do line. Taken into its caller before all else, so that an entry's kind is tested once; a count took 7 instructions an entry more.
#[inline(always)]
fn do_line<S: Sink>(sink: &mut S, call: Call)
    requires { S.room sink.old (do_text call) }
    ensures { S.took sink.old (do_text call) sink.new }
{
    sink.word(&DO);
    turn(sink, call);
    sink.word(b"\n");
}

// The text of a case, none of whose entries is barred: a barred one has no line.
fn case<S: Sink>(sink: &mut S, claimants: u32, ceiling: u32, schedule: &[u32])
    requires none_barred { some_nine schedule.now ≡ false }
    requires room { S.room sink.old (schedule_text claimants ceiling schedule.now) }
    ensures { S.took sink.old (schedule_text claimants ceiling schedule.now) sink.new }
{
    sink.line(&CLAIMANTS, claimants);
    sink.line(&CEILING, ceiling);
    for entry in schedule {
        if let Ok(call) = decoded(*entry) {
            do_line(sink, call);
        }
    }
}

// Writes the case text of a schedule into the first bytes of a lent row, whose later bytes stay. A refused schedule leaves the row
// as it was, so all that is refused is known before the first byte is written. The two numbers are given as C has them.
pub fn write(
    claimants: u32,
    ceiling: u32,
    schedule: &[u32],
    out: &mut [u8],
) -> Result<usize, Refusal>
    ensures { (result ≡ written claimants ceiling schedule.now out.old)
        × (out.new ≡ written_row claimants ceiling schedule.now out.old) }
{
    if barred(schedule) {
        return Err(Refusal::NoCall);
    }
    if 2048 < schedule.len() {
        return Err(Refusal::TooManyLines);
    }
    let mut count = Count { bytes: 0 };
    case(&mut count, claimants, ceiling, schedule);
    let bytes = count.bytes;
    if 32768 < bytes || out.len() < bytes {
        return Err(Refusal::TooLong);
    }
    case(&mut Pen::new(out), claimants, ceiling, schedule);
    Ok(bytes)
}
