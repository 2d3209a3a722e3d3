// The head: its numbers, and question 5.
ghost use Rattle.std.specs.Prelude.{◌≡◌, ◌&&◌, ◌≤◌, leb, length};
ghost use Rattle.lists.specs.Numbers as numbers;
ghost use Rattle.questions.specs.Form.{institutes_most};
ghost use Rattle.questions.specs.Records.{head_in, own_steps, kind_due};
ghost use Rattle.questions.specs.Questions.{first_no, head_questions};
ghost use Rattle.questions.specs.Numbered.{number_in};
ghost use Rattle.questions.specs.Read.{as_head};

use crate::form::{Form, form_kind, institutes_most};
use crate::question::Question;
use lists::word::word;

// The form of a file and the numbers of its round: candidates n, institutes m, horizontal types L, policy. The policy is a number, since a head is read
// before question 5 is asked of it.
#[derive(Clone, Copy)]
pub struct Head {
    pub form: Form,
    pub candidates: usize,
    pub institutes: usize,
    pub types: usize,
    pub policy: usize,
}

// The head, by its body and the form of the file.
pub fn head_in(body: &[u8], form: Form) -> Head
    requires { 8 ≤ length body.now }
    ensures { as_head result ≡ head_in form body.now }
{
    Head {
        form,
        candidates: word(body, 0),
        institutes: word(body, 2),
        types: word(body, 4),
        policy: word(body, 6),
    }
}

// Whether each institute lists its own steps.
pub fn own_steps(h: Head) -> bool
    ensures { result ≡ own_steps (as_head h) }
{
    h.policy == 2
}

// The kind that stands in the file for one of the kinds 1 to 4; a number, as in `form_kind`.
pub fn kind_due(h: Head, kind: usize) -> usize
    ensures { result ≡ kind_due (as_head h) kind }
{
    match kind {
        2 if own_steps(h) => 7,
        _ => form_kind(h.form, kind),
    }
}

// Whether all four numbers are in range.
fn in_range(h: Head) -> bool
    ensures { result
        ≡ (numbers.within 1 512 h.candidates
        && (numbers.within 1 (institutes_most h.form) h.institutes
        && (leb h.types 8 && leb h.policy 2))) }
{
    (1..=512).contains(&h.candidates)
        && (1..=institutes_most(h.form)).contains(&h.institutes)
        && h.types <= 8
        && h.policy <= 2
}

// Question 5 of a head's body.
pub fn ask_head(body: &[u8], form: Form) -> Result<(), Question>
    requires { 8 ≤ length body.now }
    ensures { number_in result ≡ first_no (head_questions form body.now) }
{
    if in_range(head_in(body, form)) {
        Ok(())
    } else {
        Err(Question::Head)
    }
}
