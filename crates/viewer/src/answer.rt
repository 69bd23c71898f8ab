// What a call answers: a number and a place.
ghost use Rattle.std.specs.Prelude.{◌≡◌, false};
ghost use Rattle.telegram.specs.Refusal.{reason_number};
ghost use Rattle.framing.specs.Respell.{answer_of};
ghost use Rattle.viewer.specs.Answer.{done, refused_at, unknown, write_answer, says_unknown};

use telegram::refusal::Refusal;

// The number of an answer that is no refusal.
const DONE: u8 = 0;

// The number that refuses an unknown framing. No other refusal has it.
const UNKNOWN_FRAMING: u8 = 255;

// The number of a refusal, and its place; or 0, and how many items were read or bytes written. C knows no enum that has a value, so number and place are what it gets.
#[repr(C)]
#[derive(Clone, Copy)]
pub struct Answer {
    pub number: u8,
    pub place: usize,
}

impl Answer {
    // So many items were read, or bytes written.
    pub fn done(count: usize) -> Answer
        ensures { result ≡ done count }
    {
        Answer {
            number: DONE,
            place: count,
        }
    }

    // What was read is no telegram, or the output is too short.
    pub fn refused(refusal: Refusal) -> Answer
        ensures answer { result ≡ refused_at (reason_number refusal.reason) refusal.place }
        ensures other { says_unknown result.number ≡ false }
    {
        Answer {
            number: refusal.reason.number(),
            place: refusal.place,
        }
    }

    // No framing has this number.
    pub fn unknown(framing: usize) -> Answer
        ensures { result ≡ unknown framing }
    {
        Answer {
            number: UNKNOWN_FRAMING,
            place: framing,
        }
    }
}

// So many items or bytes, or a refusal.
impl From<Result<usize, Refusal>> for Answer {
    ghost from_gives = { λ outcome answer. (answer ≡ write_answer (answer_of outcome)) × (says_unknown answer.number ≡ false) };

    fn from(outcome: Result<usize, Refusal>) -> Answer {
        match outcome {
            Ok(count) => Answer::done(count),
            Err(refusal) => Answer::refused(refusal),
        }
    }
}
