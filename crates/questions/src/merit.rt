// A merit list's body, and questions 11 and 12.
ghost use Rattle.std.specs.Prelude.{◌≡◌, ℕ, ◌<◌, eqb};
ghost use Rattle.lists.specs.Lists.{all_of, apart};
ghost use Rattle.lists.specs.Numbers as numbers;
ghost use Rattle.questions.specs.Questions.{first_no, merit_questions, merit_count, merit_in};
ghost use Rattle.questions.specs.Numbered.{number_in};
ghost use Rattle.questions.specs.Read.{as_head, InRange};

use crate::head::Head;
use crate::question::Question;
use lists::word::word;

// The candidate number at a place, from 0.
pub fn merit_in(body: &[u8], p: usize) -> usize
    requires { p < merit_count body.now }
    ensures { result ≡ merit_in body.now p }
{
    word(body, 2 * p)
}

// Whether each number is a candidate's.
fn all_listed(body: &[u8], candidates: usize) -> bool
    ensures { result ≡ all_of (merit_count body.now) (λ p. numbers.within 1 candidates (merit_in body.now p)) }
{
    (0..body.len() / 2).all(|p| (1..=candidates).contains(&merit_in(body, p)))
}

// Whether all numbers are different, by a table of those seen. A loop, since the table is written while it is read.
fn all_unseen(body: &[u8]) -> bool
    requires { (p : ℕ) → p < merit_count body.now → merit_in body.now p < 513 }
    ensures { result ≡ apart (merit_count body.now) (λ p q. eqb (merit_in body.now p) (merit_in body.now q)) }
{
    let mut seen = [false; 513];
    for p in 0..body.len() / 2 {
        let number = merit_in(body, p);
        if seen[number] {
            return false;
        }
        seen[number] = true;
    }
    true
}

// Questions 11 and 12 of a merit list's body.
pub fn ask_merit(body: &[u8], h: Head) -> Result<(), Question>
    requires { InRange (as_head h) }
    ensures { number_in result ≡ first_no (merit_questions (as_head h) body.now) }
{
    if !all_listed(body, h.candidates) {
        return Err(Question::Places);
    }
    if !all_unseen(body) {
        return Err(Question::SamePlaces);
    }
    Ok(())
}
