// Which refusal decides, in 01's order.
ghost use Rattle.std.specs.Prelude.{◌≡◌, is_some};
ghost use Rattle.store.specs.Entries.{table_bar, unless_barred};
ghost use Rattle.store.specs.Runs.{run_refusal};
ghost use Rattle.store.specs.Trials.{trial_refusal};
ghost use Rattle.store.specs.Standings.{standing_refusal};

use crate::Barred;
use crate::entries::caller;
use rules::{Board, Call, Refusal};

// What was found of a table, once for a call or for a whole run: its size and terms, and the number of the lowest broken record, as
// `lowest_broken` gives it.
#[derive(Clone, Copy)]
pub(crate) struct Judged {
    pub board: Board,
    pub broken: Option<usize>,
}

impl Judged {
    // 1, 2 and 3.
    #[tactic(auto, unfolding(rules::specs::Tests::first, crate::specs::Entries::table_bar))]
    fn bar(self) -> Result<(), Refusal>
        ensures { result ≡ table_bar self.board.n self.board.terms (is_some self.broken) }
    {
        self.board.opens()?;
        if self.broken.is_some() {
            return Err(Refusal::Broken);
        }
        Ok(())
    }

    // The call, where the table does not bar it.
    pub(crate) fn admits(self, call: Call) -> Result<Call, Barred>
        ensures { result ≡ unless_barred (table_bar self.board.n self.board.terms (is_some self.broken)) call }
    {
        match self.bar() {
            Ok(()) => Ok(call),
            Err(refusal) => Err(Barred {
                who: caller(call),
                refusal,
            }),
        }
    }

    // 1, 2, 3 and 10.
    #[tactic(auto, unfolding(rules::specs::Tests::first, crate::specs::Entries::table_bar, crate::specs::Runs::run_refusal))]
    pub(crate) fn runs(self, entries: usize, places: usize) -> Result<(), Refusal>
        ensures { result ≡ run_refusal self.board.n self.board.terms (is_some self.broken) entries places }
    {
        self.bar()?;
        if places < entries {
            return Err(Refusal::NoRoom);
        }
        Ok(())
    }

    // 1, 2, 3 and 4, which is for either number.
    #[tactic(auto, unfolding(rules::specs::Tests::first, crate::specs::Entries::table_bar, rules::specs::Rules::refusals, crate::specs::Standings::standing_refusal))]
    pub(crate) fn compares(self, a: u32, b: u32) -> Result<(), Refusal>
        ensures { result ≡ standing_refusal self.board.n self.board.terms a b (is_some self.broken) }
    {
        self.bar()?;
        let claimants = 1..=self.board.n;
        if claimants.contains(&(a as usize)) && claimants.contains(&(b as usize)) {
            return Ok(());
        }
        Err(Refusal::NoClaimant)
    }
}

// 1, 2 and 10: a trial opens its table, so there is no 3. Each entry wants five places; divided so, nothing can overflow.
#[tactic(auto, unfolding(rules::specs::Tests::first, crate::specs::Trials::trial_refusal))]
pub(crate) fn trial(board: Board, entries: usize, places: usize) -> Result<(), Refusal>
    ensures { result ≡ trial_refusal board.n board.terms entries places }
{
    board.opens()?;
    if places / 5 < entries {
        return Err(Refusal::NoRoom);
    }
    Ok(())
}
