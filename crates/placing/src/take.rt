// Down the places: who raises the use of those taken is taken.
ghost use Rattle.std.specs.Prelude.{◌≡◌, false, ◌≤◌, ◌<◌, length, replicate};
ghost use Rattle.round.specs.Category.{code_of};
ghost use Rattle.placing.specs.Offers.{considers_by};
ghost use Rattle.placing.specs.Left.{Left};
ghost use Rattle.placing.specs.Search.{Searching};
ghost use Rattle.placing.specs.Taken.{Without, AllExhausted, Attempted, Took};

use crate::placing::{has_type, place};
use round::entry::Category;

// Whether place p offers an entry of the category and has no step yet.
pub fn considers(offers: &[u8], steps: &[u8], category: Category, p: usize) -> bool
    requires { (p < length offers.now) × (p < length steps.now) }
    ensures { result ≡ considers_by offers.now steps.now (code_of category) p }
{
    has_type(offers[p], usize::from(u8::from(category))) && steps[p] == 0
}

// The types that have no positions, which are exhausted from the start. By index, since a proof has no values behind `iter_mut().zip`.
fn without_positions(reserved: &[usize]) -> [u8; 8]
    requires { length reserved.now ≤ 8 }
    ensures { Without reserved.now result }
{
    let mut exhausted = [0u8; 8];
    for (t, positions) in reserved.iter().enumerate() {
        if *positions == 0 {
            exhausted[t] = 1;
        }
    }
    exhausted
}

// Whether some type is not exhausted. Not by `contains`, which is slower over at most eight bytes.
fn some_open(exhausted: &[u8], types: usize) -> bool
    requires { types ≤ length exhausted.now }
    ensures { result ≡ false → AllExhausted types exhausted.now }
{
    exhausted[..types].iter().any(|seen| *seen == 0)
}

// Places p with those taken before, if that can be; what a search in vain visited is exhausted. Tables side by side, as in `place`.
pub fn take_one(
    reserved: &[usize],
    left: &mut [usize],
    marks: &[u8],
    placed: &mut [u8],
    exhausted: &mut [u8],
    p: usize,
) -> bool
    requires { Searching reserved.now left.old marks.now placed.old exhausted.old p }
    ensures { Attempted reserved.now left.old left.new marks.now exhausted.old exhausted.new placed.old placed.new p result }
{
    let mut visited = [0u8; 8];
    visited.copy_from_slice(exhausted);
    if place(reserved, left, marks, placed, &mut visited, p) {
        true
    } else {
        exhausted.copy_from_slice(&visited);
        false
    }
}

// Gives a type to each place that is taken for use, and returns their number; the positions left go along.
// Tables side by side, as they come from C (`tazbilk_choose`).
pub fn take_for_use(
    reserved: &[usize],
    left: &mut [usize],
    marks: &[u8],
    offers: &[u8],
    steps: &[u8],
    category: Category,
    placed: &mut [u8],
) -> usize
    requires reserved_len_bound { (length reserved.now ≤ 8) × (length offers.now ≡ length marks.now) × (length steps.now ≡ length marks.now) × (placed.old ≡ replicate (length marks.now) 0) }
    requires left { Left reserved.now left.old placed.old }
    ensures { Took reserved.now left.new marks.now placed.new (considers_by offers.now steps.now (code_of category)) result }
{
    let mut exhausted = without_positions(reserved);
    let mut more = some_open(&exhausted, reserved.len());
    let mut n = 0;
    // By place, since a search for place p moves those before it; to the end also where no type is open any more, since `Down` holds at every place.
    for p in 0..marks.len() {
        if more && considers(offers, steps, category, p) {
            let end = p + 1;
            if take_one(
                reserved,
                left,
                &marks[..end],
                &mut placed[..end],
                &mut exhausted,
                p,
            ) {
                n += 1;
            } else {
                more = some_open(&exhausted, reserved.len());
            }
        }
    }
    n
}
