// What a text goes into, piece by piece: a pen writes it, and a count adds up how long it is. Each piece asks for room for its own text.
// By methods, and by no `write!`, which was tried: a report's line took 462 instructions by it, and 127 by a pen.
ghost use Rattle.std.specs.Prelude.{◌≡◌, List, ℕ};
ghost use Rattle.casetext.specs.Numerals.{numeral};
ghost use Rattle.casetext.specs.Layout.{field_text, line_text};
ghost use Rattle.casetext.specs.Writing.{Room, Wrote};
ghost use Rattle.casetext.specs.Sinks.{SinkLaws, CountRoom, Counted, pen_laws, count_laws};

use crate::sizes::{Count, digits};
use crate::writing::{Pen, write_number};

pub(crate) trait Sink {
    // That a text has room; that it was taken.
    ghost room: { Self → List ℕ → Type 0 };

    ghost took: { Self → List ℕ → Self → Type 0 };

    ghost laws: { SinkLaws room took };

    fn word(&mut self, word: &[u8])
        requires { room self.old word.now }
        ensures { took self.old word.now self.new };

    // A number's digits.
    fn number(&mut self, n: u32)
        requires { room self.old (numeral n) }
        ensures { took self.old (numeral n) self.new };

    // A word with its number.
    fn field(&mut self, word: &[u8], n: u32)
        requires { room self.old (field_text word.now n) }
        ensures { took self.old (field_text word.now n) self.new }
    {
        self.word(word);
        self.number(n);
    }

    // A word with its number, and the line's end.
    fn line(&mut self, word: &[u8], n: u32)
        requires { room self.old (line_text word.now n) }
        ensures { took self.old (line_text word.now n) self.new }
    {
        self.field(word, n);
        self.word(b"\n");
    }
}

impl Sink for Count {
    ghost room = { CountRoom };

    ghost took = { Counted };

    ghost laws = { count_laws };

    fn word(&mut self, word: &[u8]) {
        self.bytes += word.len();
    }

    fn number(&mut self, n: u32) {
        self.bytes += digits(n);
    }
}

impl<'a> Sink for Pen<'a> {
    ghost room = { Room };

    ghost took = { Wrote };

    ghost laws = { pen_laws };

    // A word, byte by byte: of a word that it knows the compiler makes a store or two. `copy_from_slice` was tried: it tests for an
    // overlap too, which took 28 instructions an entry.
    #[tactic(auto, using(std::proofs::lemmas::Slice::overwrites))]
    fn word(&mut self, word: &[u8]) {
        let end = self.at + word.len();
        let place = &mut self.row[self.at..end];
        for (i, byte) in word.iter().enumerate() {
            place[i] = *byte;
        }
        self.at = end;
    }

    // Most numbers of a report have a single digit, and no call is made for those.
    fn number(&mut self, n: u32) {
        if n < 10 {
            self.word(&[b'0' + n as u8]);
        } else {
            self.at = write_number(self.row, self.at, n);
        }
    }
}
