// One step at each place: one register read, or one written.
ghost use Rattle.std.specs.Prelude.{◌≡◌, ◌+◌, ◌≤◌, eqb};
ghost use Rattle.rules.specs.Tests.{pick};
ghost use Rattle.rules.specs.Records.{placed, with_other};
ghost use Rattle.rules.specs.Places.{place_at};
ghost use Rattle.rules.specs.Rules.{reached, passed, signed, raised, scanned, taken, lowered, saw_choosing, saw_session, saw_token, saw_again, dropped_token, dropped_session, stepped};

use crate::order::{before, conflict};
use crate::{Answer, Board, Claimant, Place, Turn};

// The steps that look at their own record alone.
impl Claimant {
    // An accepted call answers the place reached.
    pub(crate) fn reached(self) -> Turn
        ensures { result ≡ reached self }
    {
        Turn {
            after: self,
            answer: Answer::Reached(self.place),
        }
    }

    fn sign(mut self) -> Turn
        ensures { result ≡ signed self }
    {
        self.session = self.want;
        self.place = Place::Raise as u8;
        self.reached()
    }

    fn raise(mut self) -> Turn
        ensures { result ≡ raised self }
    {
        self.choosing = 1;
        self.other = 1;
        self.seen = 0;
        self.place = Place::Scan as u8;
        self.reached()
    }

    fn lower(mut self) -> Turn
        ensures { result ≡ lowered self }
    {
        self.choosing = 0;
        self.other = 1;
        self.place = Place::SeeChoosing as u8;
        self.reached()
    }

    fn drop_token(mut self) -> Turn
        ensures { result ≡ dropped_token self }
    {
        self.token = 0;
        self.place = Place::DropSession as u8;
        self.reached()
    }

    fn drop_session(mut self) -> Turn
        ensures { result ≡ dropped_session self }
    {
        self.session = 0;
        self.want = 0;
        self.place = Place::Rest as u8;
        self.reached()
    }
}

// A step to be made: the record, that of claimant `number` of a board, and the value of the register that its place reads. The row looked
// at is one of 64 at most, so the next row's number is a byte too.
#[derive(Clone, Copy)]
pub(crate) struct Stepping {
    pub own: Claimant,
    pub board: Board,
    pub number: u32,
    pub value: u32,
    ghost in_rows: { own.other ≤ 64 },
}

impl Stepping {
    // The step of the place; rest and inside take none. A match, and no table of functions: no place is left out, and it is one jump.
    #[tactic(auto, unfolding(crate::specs::Rules::stepped))]
    pub(crate) fn turn(self) -> Turn
        ensures { result ≡ stepped (place_at self.own.place) self.board.n self.board.terms self.number self.value self.own }
    {
        match Place::from(self.own.place) {
            Place::Sign => self.own.sign(),
            Place::Raise => self.own.raise(),
            Place::Scan => self.scan(),
            Place::Take => self.take(),
            Place::Lower => self.own.lower(),
            Place::SeeChoosing => self.see_choosing(),
            Place::SeeSession => self.see_session(),
            Place::SeeToken => self.see_token(),
            Place::SeeAgain => self.see_again(),
            Place::DropToken => self.own.drop_token(),
            Place::DropSession => self.own.drop_session(),
            Place::Rest | Place::Inside | Place::Nowhere => self.own.reached(),
        }
    }

    fn scan(mut self) -> Turn
        ensures { result ≡ scanned self.board.n self.value self.own }
    {
        self.own.seen = self.own.seen.max(self.value);
        self.onward(Place::Scan as u8, Place::Take as u8)
    }

    fn take(self) -> Turn
        ensures { result ≡ taken self.board.terms self.own }
    {
        let mut own = self.own;
        let seen = own.seen;
        own.seen = 0;
        if seen < self.board.terms.ceiling {
            own.token = seen + 1;
            own.place = Place::Lower as u8;
            return own.reached();
        }
        own.choosing = 0;
        own.place = Place::DropSession as u8;
        Turn {
            after: own,
            answer: Answer::TurnedAway,
        }
    }

    fn see_choosing(self) -> Turn
        ensures { result ≡ saw_choosing self.value self.own }
    {
        let mut own = self.own;
        own.place = if self.value == 0 {
            Place::SeeToken as u8
        } else {
            Place::SeeSession as u8
        };
        own.reached()
    }

    fn see_session(self) -> Turn
        ensures { result ≡ saw_session self.value self.own }
    {
        let mut own = self.own;
        own.place = if conflict(self.value, own.want as u32) {
            Place::SeeChoosing as u8
        } else {
            Place::SeeToken as u8
        };
        own.reached()
    }

    fn see_token(self) -> Turn
        ensures { result ≡ saw_token self.board.n self.number self.value self.own }
    {
        let mut own = self.own;
        if self.value == 0 || before(own.token, self.number, self.value, own.other as u32) {
            return self.pass();
        }
        own.place = Place::SeeAgain as u8;
        own.reached()
    }

    fn see_again(self) -> Turn
        ensures { result ≡ saw_again self.board.n self.value self.own }
    {
        let mut own = self.own;
        if conflict(self.value, own.want as u32) {
            own.place = Place::SeeToken as u8;
            return own.reached();
        }
        self.pass()
    }

    // On to the next row, or inside after the last.
    #[tactic(auto, unfolding(crate::specs::Rules::passed))]
    fn pass(self) -> Turn
        ensures { result ≡ reached (passed self.board.n self.own) }
    {
        self.onward(Place::SeeChoosing as u8, Place::Inside as u8)
    }

    // On to the next row, at the one place, or past the last row, to the other.
    fn onward(self, next: u8, past: u8) -> Turn
        ensures { result ≡ reached (pick (eqb self.own.other self.board.n)
            (placed past (with_other 0 self.own))
            (placed next (with_other (self.own.other + 1) self.own))) }
    {
        let mut own = self.own;
        if own.other as usize == self.board.n {
            own.place = past;
            own.other = 0;
        } else {
            own.place = next;
            own.other += 1;
        }
        own.reached()
    }
}
