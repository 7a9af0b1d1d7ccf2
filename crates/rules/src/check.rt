// What a record may hold at each place: 01's table of thirteen rows, and the check that consults it.
ghost use Rattle.std.specs.Prelude.{◌≡◌};
ghost use Rattle.rules.specs.Records.{blank};
ghost use Rattle.rules.specs.Places.{allows, fits, well_formed};

use crate::{Board, Claimant, Kind, Place, Row};

// The eight different rows, by what a record with such a row is at; each whole, as 01's table has it.
const REST: Row = Row {
    session: Kind::Zero,
    want: Kind::Zero,
    choosing: Kind::Zero,
    token: Kind::Zero,
    other: Kind::Zero,
    seen: Kind::Zero,
};

const ASKED: Row = Row {
    session: Kind::Zero,
    want: Kind::Set,
    choosing: Kind::Zero,
    token: Kind::Zero,
    other: Kind::Zero,
    seen: Kind::Zero,
};

const SIGNED: Row = Row {
    session: Kind::Set,
    want: Kind::Set,
    choosing: Kind::Zero,
    token: Kind::Zero,
    other: Kind::Zero,
    seen: Kind::Zero,
};

const SCANNING: Row = Row {
    session: Kind::Set,
    want: Kind::Set,
    choosing: Kind::Set,
    token: Kind::Zero,
    other: Kind::Set,
    seen: Kind::ZeroOrSet,
};

const TAKING: Row = Row {
    session: Kind::Set,
    want: Kind::Set,
    choosing: Kind::Set,
    token: Kind::Zero,
    other: Kind::Zero,
    seen: Kind::ZeroOrSet,
};

const LOWERING: Row = Row {
    session: Kind::Set,
    want: Kind::Set,
    choosing: Kind::Set,
    token: Kind::Set,
    other: Kind::Zero,
    seen: Kind::Zero,
};

const WAITING: Row = Row {
    session: Kind::Set,
    want: Kind::Set,
    choosing: Kind::Zero,
    token: Kind::Set,
    other: Kind::Set,
    seen: Kind::Zero,
};

const INSIDE: Row = Row {
    session: Kind::Set,
    want: Kind::Set,
    choosing: Kind::Zero,
    token: Kind::Set,
    other: Kind::Zero,
    seen: Kind::Zero,
};

impl Row {
    // Whether each field of the record is of its kind. Set, Session is the want, Choosing 1, and each other from 1 on. Where the row is known,
    // each kind's test is too, so that a place's check is straight code: hence `inline`. `&`, and fields of one width side by side:
    // where both are to be 0, the two are tested as one. With `&&` the check of a record at rest costs a quarter more.
    #[inline(always)]
    #[tactic(auto, unfolding(crate::specs::Places::fits))]
    fn fits(self, board: Board, c: Claimant) -> bool
        ensures { result ≡ fits self board.n board.terms c }
    {
        let want = c.want as u64;
        let ceiling = board.terms.ceiling as u64;
        self.session.allows(want, want, c.session as u64)
            & self.want.allows(1, 65535, want)
            & self.choosing.allows(1, 1, c.choosing as u64)
            & self.other.allows(1, board.n as u64, c.other as u64)
            & self.token.allows(1, ceiling, c.token as u64)
            & self.seen.allows(1, ceiling, c.seen as u64)
    }
}

impl Kind {
    // Whether a field of this kind may hold x, where it is set from low to high.
    #[inline(always)]
    fn allows(self, low: u64, high: u64, x: u64) -> bool
        ensures { result ≡ allows self low high x }
    {
        match self {
            Kind::Zero => x == 0,
            Kind::Set => (low..=high).contains(&x),
            Kind::ZeroOrSet => x == 0 || (low..=high).contains(&x),
        }
    }
}

impl Claimant {
    // A record of zeros: a claimant at rest. Written out, field by field as 01 has it, and no default of its types.
    pub fn blank() -> Claimant
        ensures { result ≡ blank }
    {
        Claimant {
            place: 0,
            choosing: 0,
            session: 0,
            token: 0,
            want: 0,
            other: 0,
            seen: 0,
        }
    }

    // Whether the record keeps its place's row, in such a table. This is the table of thirteen rows: which of them a place has.
    #[tactic(auto, unfolding(crate::specs::Places::rows), using(crate::proofs::Places::well_formed_at))]
    pub fn well_formed(self, board: Board) -> bool
        ensures { result ≡ well_formed board.n board.terms self }
    {
        match Place::from(self.place) {
            Place::Rest => REST.fits(board, self),
            Place::Sign => ASKED.fits(board, self),
            Place::Raise | Place::DropSession => SIGNED.fits(board, self),
            Place::Scan => SCANNING.fits(board, self),
            Place::Take => TAKING.fits(board, self),
            Place::Lower => LOWERING.fits(board, self),
            Place::SeeChoosing | Place::SeeSession | Place::SeeToken | Place::SeeAgain => {
                WAITING.fits(board, self)
            }
            Place::Inside | Place::DropToken => INSIDE.fits(board, self),
            Place::Nowhere => false,
        }
    }
}
