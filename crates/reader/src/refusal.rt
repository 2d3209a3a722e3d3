// The refusal of a file or of a call.
ghost use Rattle.std.specs.Prelude.{◌≡◌};

use questions::question::Question;

// The first question that is answered no, and its byte.
#[derive(Clone, Copy, Debug, PartialEq, Eq)]
pub struct Refusal {
    pub question: Question,
    pub offset: usize,
}

// A question of the call's own that is answered no, at byte 0.
impl From<Question> for Refusal {
    ghost from_gives = { λ question refusal. refusal ≡ record { question = question; offset = 0 } };

    fn from(question: Question) -> Refusal {
        Refusal {
            question,
            offset: 0,
        }
    }
}
