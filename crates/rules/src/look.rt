// Which register a claimant reads next, and its value in a record.
ghost use Rattle.std.specs.Prelude.{◌≡◌};
ghost use Rattle.rules.specs.Rules.{reads, value_in, holds};
ghost use Rattle.rules.specs.Tables.{row_read};

use crate::{Claimant, Place, Register, Terms};

impl Claimant {
    // None, where the place writes one, or touches none.
    #[tactic(auto, unfolding(crate::specs::Rules::reads, crate::specs::Rules::read_at))]
    pub fn reads(self) -> Option<Register>
        ensures { result ≡ reads self }
    {
        match Place::from(self.place) {
            Place::Scan | Place::SeeToken => Some(Register::Token(self.other)),
            Place::SeeChoosing => Some(Register::Choosing(self.other)),
            Place::SeeSession | Place::SeeAgain => Some(Register::Session(self.other)),
            _ => None,
        }
    }
}

impl Register {
    // The row that is looked at.
    pub fn row(self) -> u8
        ensures { result ≡ row_read (Some self) }
    {
        match self {
            Register::Choosing(row) | Register::Session(row) | Register::Token(row) => row,
        }
    }

    // The register's value, in the record of the claimant looked at.
    pub fn value(self, looked: Claimant) -> u32
        ensures { result ≡ value_in (Some self) looked }
    {
        match self {
            Register::Choosing(_) => looked.choosing as u32,
            Register::Session(_) => looked.session as u32,
            Register::Token(_) => looked.token,
        }
    }

    // The row of what a claimant reads; 0 where it reads nothing.
    pub fn row_of(read: Option<Register>) -> u8
        ensures { result ≡ row_read read }
    {
        read.map_or(0, |register| register.row())
    }

    // The value of what a claimant reads; 0 where it reads nothing.
    pub fn value_of(read: Option<Register>, looked: Claimant) -> u32
        ensures { result ≡ value_in read looked }
    {
        read.map_or(0, |register| register.value(looked))
    }

    // Whether such a register can hold the value.
    pub(crate) fn holds(self, terms: Terms, value: u32) -> bool
        ensures { result ≡ holds (Some self) terms value }
    {
        match self {
            Register::Choosing(_) => value <= 1,
            Register::Session(_) => value <= 65535,
            Register::Token(_) => value <= terms.ceiling,
        }
    }
}
