// The standing of two claimants, from their records.
ghost use Rattle.std.specs.Prelude.{◌≡◌, pos, ◌-ℤ◌};
ghost use Rattle.store.specs.Standings.{opposed, stands};

use rules::Claimant;

// A claimant's number and its record: what two claims are compared by.
#[derive(Clone, Copy)]
pub(crate) struct Claim {
    pub number: u32,
    pub record: Claimant,
}

impl Claim {
    // By token and then by number.
    #[tactic(auto, unfolding(crate::specs::Standings::stands))]
    pub(crate) fn stands(self, other: Claim) -> i64
        ensures { result ≡ stands self.number other.number self.record other.record }
    {
        if !opposed(self.record, other.record) {
            return 0;
        }
        if self.record.token == other.record.token {
            return difference(self.number, other.number);
        }
        difference(self.record.token, other.record.token)
    }
}

// Both claims have a token, and their sessions conflict.
#[tactic(auto, unfolding(crate::specs::Standings::opposed))]
fn opposed(first: Claimant, second: Claimant) -> bool
    ensures { result ≡ opposed first second }
{
    1 <= first.token
        && 1 <= second.token
        && rules::conflict(first.session as u32, second.session as u32)
}

// Signed: the difference of two numbers of 32 bits fits 64. A cast of a line, for tokens and for numbers.
fn difference(a: u32, b: u32) -> i64
    ensures { result ≡ pos a -ℤ pos b }
{
    a as i64 - b as i64
}
