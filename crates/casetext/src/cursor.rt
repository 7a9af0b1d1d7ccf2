// A place in a text, and the pieces that are read there: a byte, a word and a decimal number.
ghost use Rattle.std.specs.Prelude.{◌≡◌, ◌+◌, length, get_or, drop};
ghost use Rattle.casetext.specs.Pieces.{past, digits_from, number_at, field_at};

// A place is a number, and not the rest of a text, so that what is found there is said by an equation.
#[derive(Clone, Copy)]
pub(crate) struct Cursor<'a> {
    pub text: &'a [u8],
    pub at: usize,
}

// What is found at a place: a number, and the place past it.
#[derive(Clone, Copy)]
pub(crate) struct Found {
    pub value: u32,
    pub next: usize,
}

impl<'a> Cursor<'a> {
    // Another place in the text.
    pub(crate) fn to(self, at: usize) -> Cursor<'a>
        ensures text { result.text.now ≡ self.entry.text.now }
        ensures at { result.at ≡ at }
    {
        Cursor { at, ..self }
    }

    // What comes from here on; nothing past the end.
    fn rest(self) -> &'a [u8]
        ensures { result.now ≡ drop self.entry.at self.entry.text.now }
    {
        &self.text[self.at.min(self.text.len())..]
    }

    // The byte here. Past the end it is 0, which no line has, so that nobody asks whether the text goes on.
    pub(crate) fn byte(self) -> u8
        ensures { result ≡ get_or self.entry.text.now self.entry.at 0 }
    {
        self.text.get(self.at).copied().unwrap_or(0)
    }

    // The place past this word, if the text goes on with it. A word that the compiler knows is a comparison or two: hence `inline`.
    #[inline(always)]
    #[tactic(auto, unfolding(crate::specs::Pieces::past))]
    pub(crate) fn past(self, word: &[u8]) -> Option<usize>
        ensures { result ≡ past word.now self.entry.text.now self.entry.at }
    {
        if self.rest().starts_with(word) {
            Some(self.at + word.len())
        } else {
            None
        }
    }

    // Digits from here on, and the place past them. It gives nothing once the number passes `most`, so no count of digits takes it out of
    // range. By hand: `parse` takes a sign, and wants the digits cut out first.
    #[tactic(auto, unfolding(crate::specs::Pieces::digits_from))]
    fn digits(self, most: u32) -> Option<Found>
        ensures { result ≡ digits_from most 0 self.entry.at (drop self.entry.at self.entry.text.now) }
    {
        let digits = self.rest();
        let mut value: u32 = 0;
        for (i, b) in digits.iter().enumerate() {
            if !b.is_ascii_digit() {
                let next = self.at + i;
                return Some(Found { value, next });
            }
            let more = value as u64 * 10 + (*b - b'0') as u64;
            if (most as u64) < more {
                return None;
            }
            value = more as u32;
        }
        let next = self.at + digits.len();
        Some(Found { value, next })
    }

    // A decimal number of at most `most`, with no zero in front.
    #[tactic(auto, unfolding(crate::specs::Pieces::number_at))]
    pub(crate) fn number(self, most: u32) -> Option<Found>
        ensures { result ≡ number_at most self.entry.text.now self.entry.at }
    {
        match self.byte() {
            b'0' => Some(Found {
                value: 0,
                next: self.at + 1,
            }),
            b'1'..=b'9' => self.digits(most),
            _ => None,
        }
    }

    // A word and the number after it.
    #[tactic(auto, unfolding(crate::specs::Pieces::field_at))]
    pub(crate) fn field(self, word: &[u8], most: u32) -> Option<Found>
        ensures { result ≡ field_at word.now most self.entry.text.now self.entry.at }
    {
        self.to(self.past(word)?).number(most)
    }
}
