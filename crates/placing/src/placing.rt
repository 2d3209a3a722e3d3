// The search for a place: a type for one more applicant, who may make others move.
ghost use Rattle.std.specs.Prelude.{◌≡◌, true, false, ◌&&◌, ◌+◌, ◌≤◌, ◌<◌, eqb, length, get_or};
ghost use Rattle.lists.specs.Numbers.{holds};
ghost use Rattle.placing.specs.Search.{NothingToTry, SomeToTry, Sought, Searching, Searched};

use crate::left::settle;

// Whether the marks have type t.
#[tactic(auto, unfolding(lists::specs::Numbers::holds))]
pub fn has_type(marks: u8, t: usize) -> bool
    requires { t < 8 }
    ensures { result ≡ holds marks t }
{
    (usize::from(marks) >> t) % 2 == 1
}

// Whether the marks have type t and the search has not been there.
pub fn to_try(marks: u8, visited: &[u8], t: usize) -> bool
    requires { (t < 8) × (t < length visited.now) }
    ensures { result ≡ (holds marks t && eqb (get_or visited.now t 0) 0) }
{
    has_type(marks, t) && visited[t] == 0
}

// Whether the marks have some type where the search has not been.
fn some_to_try(marks: u8, visited: &[u8]) -> bool
    requires { length visited.now ≡ 8 }
    ensures { (result ≡ false → NothingToTry marks visited.now) × (result ≡ true → SomeToTry marks visited.now) }
{
    (0..8).any(|t| to_try(marks, visited, t))
}

// Going up the places from before `end`, the next one who is placed at type t and has some type where the search has not been.
// Tables side by side, as in `place`.
fn next_holder(marks: &[u8], placed: &[u8], visited: &[u8], t: usize, end: usize) -> Option<usize>
    requires { (t < 8) × (end ≤ length placed.now) × (length placed.now ≡ length marks.now) × (length visited.now ≡ 8) }
    ensures { Sought marks.now placed.now visited.now t end result }
{
    (0..end).rev().find(|h| usize::from(placed[*h]) == t + 1 && some_to_try(marks[*h], visited))
}

// Places c, and may move others for it; says whether it could. A place has 0 or its type from 1, and a type 1 where the search has been, as `Searching`
// has them.
// The lists are parameters and no struct: behind `&mut self` each contract would have to say too that the positions and the marks stay.
pub fn place(
    reserved: &[usize],
    left: &mut [usize],
    marks: &[u8],
    placed: &mut [u8],
    visited: &mut [u8],
    c: usize,
) -> bool
    requires { Searching reserved.now left.old marks.now placed.old visited.old c }
    ensures { Searched reserved.now left.new marks.now visited.old visited.new placed.old placed.new c result }
{
    // Nested loops left by a label with the type that is found, as the rule of the search has it.
    let found = 'search: {
        for t in 0..reserved.len() {
            if to_try(marks[c], visited, t) {
                visited[t] = 1;
                if 0 < left[t] {
                    break 'search Some(t);
                }
                let mut end = placed.len();
                while let Some(h) = next_holder(marks, placed, visited, t, end) {
                    if place(reserved, left, marks, placed, visited, h) {
                        break 'search Some(t);
                    }
                    end = h;
                }
            }
        }
        None
    };
    let Some(t) = found else {
        return false;
    };
    settle(left, placed, c, t);
    true
}
