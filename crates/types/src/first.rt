// The first placing, from any: down the places each gets the smallest type with which those before keep theirs and all are placed. A type that
// was searched for in vain stays exhausted until somebody who has it is lowered.
ghost use Rattle.std.specs.Prelude.{◌≡◌, true, ◌^◌, ◌≤◌, ◌<◌, length, replicate};
ghost use Rattle.matching.specs.Use.{Placing};
ghost use Rattle.round.specs.Category.{code_of};
ghost use Rattle.placing.specs.Offers.{considers_by};
ghost use Rattle.placing.specs.Left.{Left};
ghost use Rattle.types.specs.Lowered.{Reopened, Lowering, Lowered, LoweringFrom, LoweredFrom, PlacedFirst, TookTyped};

use placing::left::{positions_of, settle, vacate};
use placing::placing::to_try;
use placing::take::{take_for_use, take_one};
use round::entry::Category;

// The marks of one type.
fn mark_of(t: usize) -> u8
    requires { t < 8 }
    ensures { result ≡ 2 ^ t }
{
    1 << t
}

// Forgets what is exhausted where type u is.
fn reopen(exhausted: &mut [u8], u: usize)
    requires { (length exhausted.old ≡ 8) × (u < 8) }
    ensures { Reopened exhausted.old exhausted.new u }
{
    if exhausted[u] != 0 {
        exhausted.fill(0);
    }
}

// Gives the front place the smallest type that it can have with all placed who are.
// The lists are parameters and no struct: the marks are written between the calls, and the lists are parts of those of `lower_at`. A loop over the types, since
// each search writes the lists. A place has 0 or its type from 1, and a type that is exhausted 1, as `Lowering` has them.
fn lower(
    room: &[usize],
    left: &mut [usize],
    marks: &mut [u8],
    placed: &mut [u8],
    exhausted: &mut [u8],
)
    requires { Lowering room.now left.old marks.old placed.old exhausted.old }
    ensures { Lowered room.now left.new marks.old marks.new placed.old placed.new exhausted.new }
{
    let own = marks[0];
    let last = usize::from(placed[0]) - 1;
    vacate(left, placed, 0);
    for t in 0..last {
        if to_try(own, exhausted, t) {
            marks[0] = mark_of(t);
            if take_one(room, left, marks, placed, exhausted, 0) {
                return;
            }
        }
    }
    settle(left, placed, 0, last);
}

// Gives place p the smallest type that it can have with those before it as they are and all placed who are, and takes a position of that
// type away. Tables side by side, as in `lower`.
fn lower_at(
    room: &mut [usize],
    left: &mut [usize],
    marks: &mut [u8],
    placed: &mut [u8],
    exhausted: &mut [u8],
    p: usize,
)
    requires { LoweringFrom room.old left.old marks.old placed.old exhausted.old p }
    ensures { LoweredFrom room.old room.new left.new marks.old marks.new placed.old placed.new exhausted.new p }
{
    reopen(exhausted, usize::from(placed[p]) - 1);
    lower(room, left, &mut marks[p..], &mut placed[p..], exhausted);
    room[usize::from(placed[p]) - 1] -= 1;
}

// Lowers the types of all places, one after the other.
fn lower_all(reserved: &[usize], left: &mut [usize], marks: &[u8], placed: &mut [u8])
    requires reserved_len_bound { (length reserved.now ≤ 8) × (length marks.now ≤ 512) }
    requires placing { Placing reserved.now marks.now placed.old × Left reserved.now left.old placed.old }
    ensures { PlacedFirst true reserved.now marks.now placed.old placed.new × Left reserved.now left.new placed.new }
{
    let types = reserved.len();
    let n = marks.len();
    let mut held = [0u8; 512];
    held[..n].copy_from_slice(marks);
    let mut room = positions_of(reserved);
    let mut exhausted = [0u8; 8];
    // By place, since lowering place p writes the places from there on.
    for p in 0..n {
        if placed[p] != 0 {
            lower_at(
                &mut room[..types],
                left,
                &mut held[..n],
                placed,
                &mut exhausted,
                p,
            );
        }
    }
}

// Makes a placing the first one of the same places, where that is asked for.
// A flag and no Option of the table, which holds a placing in both cases.
fn place_first(first: bool, reserved: &[usize], left: &mut [usize], marks: &[u8], placed: &mut [u8])
    requires reserved_len_bound { (length reserved.now ≤ 8) × (length marks.now ≤ 512) }
    requires placing { Placing reserved.now marks.now placed.old × Left reserved.now left.old placed.old }
    ensures { PlacedFirst first reserved.now marks.now placed.old placed.new × Left reserved.now left.new placed.new }
{
    if first {
        lower_all(reserved, left, marks, placed);
    }
}

// Gives a type to each place that is taken for use, by the first placing where that is asked for, and returns their number.
// Tables side by side, as they come from C (`tazbilk_choose`). A flag and no Option of the table of types, which is filled in both cases.
pub fn take_typed(
    first: bool,
    reserved: &[usize],
    marks: &[u8],
    offers: &[u8],
    steps: &[u8],
    category: Category,
    placed: &mut [u8],
) -> usize
    requires { (length reserved.now ≤ 8) × (length marks.now ≤ 512) × (length offers.now ≡ length marks.now) × (length steps.now ≡ length marks.now) × (placed.old ≡ replicate (length marks.now) 0) }
    ensures { TookTyped first reserved.now marks.now placed.new (considers_by offers.now steps.now (code_of category)) result }
{
    let mut left = positions_of(reserved);
    let count = take_for_use(reserved, &mut left, marks, offers, steps, category, placed);
    if count == 0 {
        return 0;
    }
    place_first(first, reserved, &mut left, marks, placed);
    count
}
