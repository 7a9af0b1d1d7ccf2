// Who is in whose way, and who of two goes first.
ghost use Rattle.std.specs.Prelude.{◌≡◌};
ghost use Rattle.rules.specs.Rules.{conflict, before};

// Two sessions conflict if both are nonzero and differ.
#[tactic(auto, unfolding(crate::specs::Rules::conflict))]
pub fn conflict(s: u32, t: u32) -> bool
    ensures { result ≡ conflict s t }
{
    1 <= s && 1 <= t && s != t
}

// (token, number) is below (token2, number2), by token and then by number.
#[tactic(auto, unfolding(crate::specs::Rules::before))]
pub(crate) fn before(token: u32, number: u32, token2: u32, number2: u32) -> bool
    ensures { result ≡ before token number token2 number2 }
{
    (token, number) < (token2, number2)
}
