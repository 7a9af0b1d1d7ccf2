// 01's numbers: of a place, a refusal and an answer.
ghost use Rattle.std.specs.Prelude.{◌≡◌, ◌+◌, ◌%◌};
ghost use Rattle.rules.specs.Places.{place_at};
ghost use Rattle.rules.specs.Answers.{refusal_number, number_of, byte_of};

use crate::{Answer, Place, Refusal};

impl From<u8> for Place {
    ghost from_gives = { λ n p. p ≡ place_at n };

    #[tactic(auto, unfolding(crate::specs::Places::place_at))]
    fn from(number: u8) -> Place {
        match number {
            0 => Place::Rest,
            1 => Place::Sign,
            2 => Place::Raise,
            3 => Place::Scan,
            4 => Place::Take,
            5 => Place::Lower,
            6 => Place::SeeChoosing,
            7 => Place::SeeSession,
            8 => Place::SeeToken,
            9 => Place::SeeAgain,
            10 => Place::Inside,
            11 => Place::DropToken,
            12 => Place::DropSession,
            _ => Place::Nowhere,
        }
    }
}

impl From<Refusal> for u8 {
    ghost from_gives = { λ r n. n ≡ refusal_number r };

    fn from(refusal: Refusal) -> u8 {
        refusal as u8
    }
}

impl Answer {
    // 01's number of an answer that refuses with this number, also with one that no call gives: of 255 it is 287, so it has 16 bits.
    pub fn refused_number(refusal: u8) -> u16
        ensures { result ≡ 32 + refusal }
    {
        32 + refusal as u16
    }

    // The answer byte of a number, which is its remainder.
    pub fn number_byte(number: u16) -> u8
        ensures { result ≡ number % 256 }
    {
        (number % 256) as u8
    }
}

// 01's number of any answer that can be made; what CONTRACTS has of a number and of a byte are two promises, and the byte is made of
// the number.
impl From<Answer> for u16 {
    ghost from_gives = { λ a n. n ≡ number_of a };

    fn from(answer: Answer) -> u16 {
        match answer {
            Answer::Reached(place) => place as u16,
            Answer::TurnedAway => 31,
            Answer::Refused(refusal) => Answer::refused_number(u8::from(refusal)),
        }
    }
}

// The answer byte of a schedule's entry: 01's number, of which a byte takes the remainder. No answer of a call passes it.
impl From<Answer> for u8 {
    ghost from_gives = { λ a n. n ≡ byte_of a };

    fn from(answer: Answer) -> u8 {
        Answer::number_byte(u16::from(answer))
    }
}
