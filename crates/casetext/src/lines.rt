// The lines of a case text, each read at a place.
ghost use Rattle.std.specs.Prelude.{◌≡◌};
ghost use Rattle.casetext.specs.Lines.{ended_at, line_at, called_at, ask_at, turn_at, do_line_at};

use crate::cursor::{Cursor, Found};
use crate::spelling::{ASK, DO, LEAVE, SESSION, STEP};

impl Cursor<'_> {
    // What was found, if the line ends right after it.
    #[tactic(auto, unfolding(crate::specs::Lines::ended_at))]
    fn ended(self, found: Found) -> Option<Found>
        ensures { result ≡ ended_at self.entry.text.now found }
    {
        if self.to(found.next).byte() == b'\n' {
            Some(Found {
                next: found.next + 1,
                ..found
            })
        } else {
            None
        }
    }

    // A line of a word and a number.
    #[tactic(auto, unfolding(crate::specs::Lines::line_at))]
    pub(crate) fn line(self, word: &[u8], most: u32) -> Option<Found>
        ensures { result ≡ line_at word.now most self.entry.text.now self.entry.at }
    {
        self.ended(self.field(word, most)?)
    }

    // The entry of a step or a leave, which has a claimant and no session. 01 makes one number of the kind and the claimant.
    #[tactic(auto, using(crate::proofs::Digits::in_range), unfolding(crate::specs::Lines::called_at))]
    fn called(self, kind: u8) -> Option<Found>
        ensures { result ≡ called_at kind self.entry.text.now self.entry.at }
    {
        let who = self.number(255)?;
        Some(Found {
            value: kind as u32 * 16777216 + who.value * 65536,
            ..who
        })
    }

    // The entry of an ask, which has both.
    #[tactic(auto, using(crate::proofs::Digits::in_range), unfolding(crate::specs::Lines::ask_at, crate::specs::Lines::asked_by))]
    fn ask(self) -> Option<Found>
        ensures { result ≡ ask_at self.entry.text.now self.entry.at }
    {
        let who = self.number(255)?;
        let session = self.to(who.next).field(&SESSION, 65535)?;
        Some(Found {
            value: 16777216 + who.value * 65536 + session.value,
            ..session
        })
    }

    // What stands after `do=`: the entry of an ask, a step or a leave.
    #[tactic(auto, unfolding(crate::specs::Lines::turn_at, crate::specs::Pieces::past))]
    fn turn(self) -> Option<Found>
        ensures { result ≡ turn_at self.entry.text.now self.entry.at }
    {
        if let Some(at) = self.past(&STEP) {
            return self.to(at).called(0);
        }
        if let Some(at) = self.past(&ASK) {
            return self.to(at).ask();
        }
        self.to(self.past(&LEAVE)?).called(2)
    }

    // A do line.
    #[tactic(auto, unfolding(crate::specs::Lines::do_line_at))]
    pub(crate) fn do_line(self) -> Option<Found>
        ensures { result ≡ do_line_at self.entry.text.now self.entry.at }
    {
        let at = self.past(&DO)?;
        self.ended(self.to(at).turn()?)
    }
}
