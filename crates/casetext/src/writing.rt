// What writes a text into a lent row.
ghost use Rattle.std.specs.Prelude.{◌≡◌, ◌+◌, ◌≤◌, ◌++◌, length, take, drop};
ghost use Rattle.casetext.specs.Numerals.{numeral};

use crate::sizes::digits;
use itoa::write_digits;

// A row, and the place in it that is written to next. `std`'s `Write` for a row doesn't say what the row holds, and its `io::Cursor` not
// that the row is the one that was lent.
#[derive(Drop)]
pub(crate) struct Pen<'a> {
    pub(crate) row: &'a mut [u8],
    pub(crate) at: usize,
    ghost within: { at ≤ length row.now },
}

impl<'a> Pen<'a> {
    // A pen at the row's beginning.
    pub(crate) fn new(row: &'a mut [u8]) -> Pen<'a>
        ensures same { result.row.ghost_name ≡ row.entry.ghost_name }
        ensures row { result.row.now ≡ row.old }
        ensures at { result.at ≡ 0 }
    {
        Pen { row, at: 0 }
    }

    // How many bytes are written.
    pub(crate) fn written(&self) -> usize
        ensures { result ≡ self.now.at }
    {
        self.at
    }
}

// Writes a number's digits at a place; gives the place past them. As a call of its own it leaves a pen's functions so small that the
// compiler takes them into their callers. It takes the row and the place, and no pen: a pen that goes into a call is read from
// memory again, which took 36 instructions an entry.
#[inline(never)]
pub(crate) fn write_number(row: &mut [u8], at: usize, n: u32) -> usize
    requires { at + length (numeral n) ≤ length row.old }
    ensures end { result ≡ at + length (numeral n) }
    ensures done { take result row.new ≡ take at row.old ++ numeral n }
    ensures left { drop result row.new ≡ drop (length (numeral n)) (drop at row.old) }
{
    let end = at + digits(n);
    write_digits(n as u64, row, end);
    end
}
