// The allotment of a round.
#![tactic(auto)]

mod areas;
mod call;
pub mod sizes;

pub use call::allot;
use reader::refusal::Refusal;

// The answer of a call: the number of offers, or the number of the refusal with its byte. Document 01 names these two cases, so it is no Result.
#[derive(Clone, Copy, Debug, PartialEq, Eq)]
pub enum Answer {
    Allotted(usize),
    Refused { number: usize, offset: usize },
}

// The answer that a result stands for.
impl From<Result<usize, Refusal>> for Answer {
    ghost use Rattle.std.specs.Prelude.{◌≡◌};
    ghost use Rattle.allotment.specs.Outcome.{answer_of};

    ghost from_gives = { λ told answer. answer ≡ answer_of told };

    fn from(told: Result<usize, Refusal>) -> Answer {
        match told {
            Ok(offers) => Answer::Allotted(offers),
            Err(Refusal { question, offset }) => Answer::Refused {
                number: question.number(),
                offset,
            },
        }
    }
}
