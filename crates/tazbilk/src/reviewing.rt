// The review of a list of seats as numbers, as C and Rust call it.
ghost use Rattle.std.specs.Prelude.{◌≡◌};
ghost use Rattle.tazbilk.specs.Reviewing.{numbers_of, Exported};

use reader::refusal::Refusal;
use review::{Judgement, review};

// The four numbers of what a review says, since C has them in the place of the enum.
fn review_numbers(told: Result<Judgement, Refusal>) -> [u64; 4]
    ensures { result ≡ numbers_of told }
{
    match told {
        Ok(Judgement::Passes) => [0, 0, 0, 0],
        Err(Refusal { question, offset }) => [1, question.number() as u64, offset as u64, 0],
        Ok(Judgement::WrongSeat { candidate }) => [2, candidate as u64, 0, 0],
        Ok(Judgement::BetterEntry { candidate, entry }) => {
            let category = u64::from(u8::from(entry.category));
            [3, candidate as u64, entry.institute as u64, category]
        }
    }
}

// The review of a list of seats for a round file, with what it says as four numbers. Areas side by side, as C lends them.
pub fn tazbilk_review(file: &[u8], list: &[u8], work: &mut [u8], res: &mut [u64; 4])
    ensures { Exported file.now list.now work.old res.new work.new }
{
    *res = review_numbers(review(file, list, work));
}
