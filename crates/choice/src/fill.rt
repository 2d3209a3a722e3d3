// The positions that are left go by merit to those left.
ghost use Rattle.std.specs.Prelude.{◌≡◌, min, length};
ghost use Rattle.lists.specs.Lists.{count_of};
ghost use Rattle.round.specs.Category.{code_of};
ghost use Rattle.placing.specs.Offers.{considers_by};
ghost use Rattle.matching.specs.Use.{typed_at};
ghost use Rattle.choice.specs.Fill.{rest_at, fills_at, seats_at, numbered, typed};
ghost use Rattle.lists.specs.Lists.{last_of};

use placing::take::considers;
use round::entry::Category;

// How many got a position by merit, and the largest place of theirs, from 1; 0 for nobody, as `closing_place` has it.
#[derive(Clone, Copy)]
pub struct ByMerit {
    pub filled: usize,
    pub closing: usize,
}

// Gives the step's number to each place that has a type, which is the type used, and to the best of the rest, as far as positions are free;
// returns what the rest got. Tables side by side, as `choose` has them,
// and two of them written by index.
pub fn fill(
    free: usize,
    number: u8,
    offers: &[u8],
    category: Category,
    placed: &[u8],
    steps: &mut [u8],
    used: &mut [u8],
) -> ByMerit
    requires { (length offers.now ≡ length steps.old) × (length placed.now ≡ length steps.old) × (length used.old ≡ length steps.old) }
    ensures { (steps.new ≡ numbered (length steps.old) number (seats_at placed.now (considers_by offers.now steps.old (code_of category)) free) steps.old)
        × (result.filled ≡ min free (count_of (length steps.old) (rest_at placed.now (considers_by offers.now steps.old (code_of category)))))
        × (used.new ≡ typed (length steps.old) placed.now (typed_at placed.now) used.old)
        × (result.closing ≡ last_of (length steps.old) (fills_at placed.now (considers_by offers.now steps.old (code_of category)) free)) }
{
    let mut filled = 0;
    let mut closing = 0;
    for (p, kind) in placed.iter().enumerate() {
        if *kind != 0 {
            steps[p] = number;
            used[p] = *kind;
        } else if filled < free && considers(offers, steps, category, p) {
            steps[p] = number;
            filled += 1;
            closing = p + 1;
        }
    }
    ByMerit { filled, closing }
}
