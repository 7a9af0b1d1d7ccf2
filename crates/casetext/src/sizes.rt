// How long the pieces of a text are, so that a text's length is known before anything of it is written.
ghost use Rattle.std.specs.Prelude.{◌≡◌, ◌≤◌, length};
ghost use Rattle.casetext.specs.Numerals.{numeral};

// The length of a text, added up.
#[derive(Drop)]
pub(crate) struct Count {
    pub(crate) bytes: usize,
}

// How many digits a number has. Most have one, for which a test costs less than the logarithm.
pub(crate) fn digits(n: u32) -> usize
    ensures value { result ≡ length (numeral n) }
    ensures upper_bound { result ≤ 10 }
{
    if n < 10 {
        return 1;
    }
    n.ilog10() as usize + 1
}
