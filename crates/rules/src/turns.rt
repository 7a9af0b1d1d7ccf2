// The three calls on a claimant's record. Each refuses by 01's list, and a refused record comes back as it was.
ghost use Rattle.std.specs.Prelude.{◌≡◌, not, []};
ghost use Rattle.rules.specs.Tests.{first, by_verdict};
ghost use Rattle.rules.specs.Answers.{refusal_number};
ghost use Rattle.rules.specs.Rules.{reads, holds, open_refusals, refusals, refused, ask_refusals, asked, step_refusals, step_taken, leave_refusals, left};

use crate::steps::Stepping;
use crate::{Answer, Board, Claimant, Place, Refusal, Terms, Turn};

impl Board {
    // `RowCount` and `NoCeiling`, which opening a table gives, and every call before all else.
    #[tactic(auto, unfolding(crate::specs::Tests::first))]
    pub fn opens(self) -> Result<(), Refusal>
        ensures { result ≡ first (open_refusals self.n self.terms) }
    {
        if !(1..=64).contains(&self.n) {
            return Err(Refusal::RowCount);
        }
        if self.terms.ceiling == 0 {
            return Err(Refusal::NoCeiling);
        }
        Ok(())
    }

    // The number of the one that `opens` gives, or else the number handed in.
    pub fn refusal(self, otherwise: u8) -> u8
        ensures { result ≡ by_verdict (first (open_refusals self.n self.terms)) otherwise refusal_number }
    {
        match self.opens() {
            Ok(()) => otherwise,
            Err(refusal) => u8::from(refusal),
        }
    }

    // Those, `Broken` and `NoClaimant`, which every call gives before its own. `sound` is what was found of the record.
    #[tactic(auto, unfolding(crate::specs::Tests::first, crate::specs::Rules::refusals))]
    fn takes(self, number: u32, sound: bool) -> Result<(), Refusal>
        ensures { result ≡ first (refusals self.n self.terms number (not sound) []) }
    {
        self.opens()?;
        if !sound {
            return Err(Refusal::Broken);
        }
        if !(1..=self.n).contains(&(number as usize)) {
            return Err(Refusal::NoClaimant);
        }
        Ok(())
    }
}

impl Claimant {
    fn refused(self, refusal: Refusal) -> Turn
        ensures { result ≡ refused self refusal }
    {
        Turn {
            after: self,
            answer: Answer::Refused(refusal),
        }
    }

    #[tactic(auto, unfolding(crate::specs::Tests::first, crate::specs::Rules::refusals))]
    fn may_ask(self, board: Board, number: u32, session: u16) -> Result<(), Refusal>
        ensures { result ≡ first (ask_refusals board.n board.terms number session self) }
    {
        board.takes(number, self.well_formed(board))?;
        if session == 0 {
            return Err(Refusal::NoSession);
        }
        if self.place != Place::Rest as u8 {
            return Err(Refusal::NotAtRest);
        }
        Ok(())
    }

    // Whether the value can be that of the register read next; any can, where none is.
    fn may_read(self, terms: Terms, value: u32) -> bool
        ensures { result ≡ holds (reads self) terms value }
    {
        match self.reads() {
            Some(register) => register.holds(terms, value),
            None => true,
        }
    }

    #[tactic(auto, unfolding(crate::specs::Tests::first, crate::specs::Rules::refusals))]
    fn may_step(self, board: Board, number: u32, value: u32) -> Result<(), Refusal>
        ensures { result ≡ first (step_refusals board.n board.terms number value self) }
    {
        let sound = self.well_formed(board) && self.may_read(board.terms, value);
        board.takes(number, sound)?;
        if self.place == Place::Rest as u8 || self.place == Place::Inside as u8 {
            return Err(Refusal::NoStep);
        }
        Ok(())
    }

    #[tactic(auto, unfolding(crate::specs::Tests::first, crate::specs::Rules::refusals))]
    fn may_leave(self, board: Board, number: u32) -> Result<(), Refusal>
        ensures { result ≡ first (leave_refusals board.n board.terms number self) }
    {
        board.takes(number, self.well_formed(board))?;
        if self.place != Place::Inside as u8 {
            return Err(Refusal::NotInside);
        }
        Ok(())
    }

    // Asks for a session. Touches no register, so the value is ignored; 01 gives each rule N and the ceiling (a board), the number and
    // a value, by name.
    #[tactic(auto, unfolding(crate::specs::Rules::asked, crate::specs::Rules::unless))]
    pub fn ask(mut self, board: Board, number: u32, _value: u32, session: u16) -> Turn
        ensures { result ≡ asked board.n board.terms number session self }
    {
        if let Err(refusal) = self.may_ask(board, number, session) {
            return self.refused(refusal);
        }
        self.want = session;
        self.place = Place::Sign as u8;
        self.reached()
    }

    // Takes one step, given the value of the register that `reads` names.
    #[tactic(auto, unfolding(crate::specs::Rules::step_taken, crate::specs::Rules::unless), using(crate::proofs::Refusing::next_fits))]
    pub fn step(self, board: Board, number: u32, value: u32) -> Turn
        ensures { result ≡ step_taken board.n board.terms number value self }
    {
        if let Err(refusal) = self.may_step(board, number, value) {
            return self.refused(refusal);
        }
        let stepping = Stepping {
            own: self,
            board,
            number,
            value,
        };
        stepping.turn()
    }

    // Leaves. Touches no register, so the value is ignored.
    #[tactic(auto, unfolding(crate::specs::Rules::left, crate::specs::Rules::unless))]
    pub fn leave(mut self, board: Board, number: u32, _value: u32) -> Turn
        ensures { result ≡ left board.n board.terms number self }
    {
        if let Err(refusal) = self.may_leave(board, number) {
            return self.refused(refusal);
        }
        self.place = Place::DropToken as u8;
        self.reached()
    }
}
