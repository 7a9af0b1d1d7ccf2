// Case texts: the reader, which takes any bytes at all, the writer, which takes any schedule, and what `boardcase` prints of a text.
//
// The layout is defined by writing (specs/Layout.antt): a line is the text of what it says.
#![tactic(auto)]

ghost use Rattle.std.specs.Prelude.{◌≡◌};

mod cursor;
mod lines;
mod reader;
mod reporting;
mod sinks;
mod sizes;
mod spelling;
mod writer;
mod writing;

pub use reader::read;
pub use reporting::report;
use rules::Refusal;
pub use writer::write;

// A case text that was read: the two numbers, and how many entries it has.
#[derive(Clone, Copy, Debug, PartialEq, Eq)]
pub struct Case {
    pub claimants: u32,
    pub ceiling: u32,
    pub count: usize,
}

// Why a text is refused, and at which line; 0 where no line is at fault: so 01 prints it, and so the theorems have it.
#[derive(Clone, Copy, Debug, PartialEq, Eq)]
pub struct Fault {
    pub refusal: Refusal,
    pub line: usize,
}

impl Fault {
    // This refusal of this line.
    pub(crate) fn at(refusal: Refusal, line: usize) -> Fault
        ensures { result ≡ record { refusal = refusal; line = line } }
    {
        Fault { refusal, line }
    }
}
