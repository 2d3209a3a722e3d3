// The allotment as numbers, as C and Rust call it.
ghost use Rattle.std.specs.Prelude.{◌≡◌};
ghost use Rattle.tazbilk.specs.Allotting.{numbers_of, Exported};

use allotment::{Answer, allot};

// The three numbers of an answer, since C has them in the place of the enum.
fn allot_numbers(told: Answer) -> [u64; 3]
    ensures { result ≡ numbers_of told }
{
    match told {
        Answer::Allotted(offers) => [0, offers as u64, 0],
        Answer::Refused { number, offset } => [1, number as u64, offset as u64],
    }
}

// The allotment of a round file, with the answer as three numbers. Areas side by side, as C lends them.
pub fn tazbilk_allot(file: &[u8], answer: &mut [u8], work: &mut [u8], res: &mut [u64; 3])
    ensures { Exported file.now answer.old work.old
        res.new answer.new work.new }
{
    *res = allot_numbers(allot(file, answer, work));
}
