// The words of a case text, which the reader looks for and the writer writes. Arrays, so that their lengths are known to both.
pub(crate) const CLAIMANTS: [u8; 10] = *b"claimants=";

pub(crate) const CEILING: [u8; 8] = *b"ceiling=";

pub(crate) const DO: [u8; 3] = *b"do=";

pub(crate) const STEP: [u8; 5] = *b"step ";

pub(crate) const ASK: [u8; 4] = *b"ask ";

pub(crate) const SESSION: [u8; 1] = *b" ";

pub(crate) const LEAVE: [u8; 6] = *b"leave ";
