// What a trial leaves for each entry.
ghost use Rattle.std.specs.Prelude.{◌≡◌};
ghost use Rattle.store.specs.Trials.{five};

use rules::Turn;

// Five numbers of the turn that was made.
pub(crate) fn five(turn: Turn) -> [u32; 5]
    ensures { result ≡ five turn.after turn.answer }
{
    let own = turn.after;
    [
        own.place as u32,
        own.session as u32,
        own.choosing as u32,
        own.token,
        u16::from(turn.answer) as u32,
    ]
}
