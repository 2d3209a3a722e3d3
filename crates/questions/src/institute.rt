// An institute's body: its steps, and questions 6, 7, 17 and 18.
ghost use Rattle.std.specs.Prelude.{◌≡◌, ◌||◌, ◌+◌, ◌*◌, ◌≤◌, ◌<◌, leb, eqb};
ghost use Rattle.lists.specs.Lists.{all_of, sum_of};
ghost use Rattle.questions.specs.Steps.{step_lead, step_width, step_count, positions_in, reserved_in, step_code, receiver_in};
ghost use Rattle.lists.specs.Numbers as numbers;
ghost use Rattle.questions.specs.Numbered.{number_in};
ghost use Rattle.questions.specs.Questions.{first_no, list_questions, institute_questions};
ghost use Rattle.questions.specs.Read.{as_head, InstituteBody};

use crate::head::{Head, own_steps};
use crate::question::Question;
use lists::word::word;

// The bytes that lead a step.
fn step_lead(h: Head) -> usize
    ensures { result ≡ step_lead (as_head h) }
{
    if own_steps(h) { 2 } else { 0 }
}

// The bytes of a step.
pub fn step_width(h: Head) -> usize
    requires { h.types ≤ 8 }
    ensures { result ≡ step_width (as_head h) }
{
    step_lead(h) + (2 + 2 * h.types)
}

// An institute's body, of at most twelve whole steps, with the head of its file.
#[derive(Clone, Copy)]
pub struct Steps<'a> {
    pub body: &'a [u8],
    pub head: Head,
    pub ghost whole: { InstituteBody (as_head head) body.now },
}

impl Steps<'_> {
    // The number of steps.
    pub fn count(&self) -> usize
        ensures { result ≡ step_count (as_head self.now.head) self.now.body.now }
    {
        if own_steps(self.head) {
            self.body.len() / step_width(self.head)
        } else {
            5
        }
    }

    // The positions of step k, from 0.
    pub fn positions(&self, k: usize) -> usize
        requires { k < step_count (as_head self.now.head) self.now.body.now }
        ensures { (result ≡ positions_in (as_head self.now.head) self.now.body.now k) × (result < 65536) }
    {
        word(self.body, k * step_width(self.head) + step_lead(self.head))
    }

    // Those of them that are reserved for a type, from 0.
    pub fn reserved(&self, k: usize, t: usize) -> usize
        requires { (k < step_count (as_head self.now.head) self.now.body.now) × (t < self.now.head.types) }
        ensures { (result ≡ reserved_in (as_head self.now.head) self.now.body.now k t) × (result < 65536) }
    {
        word(
            self.body,
            k * step_width(self.head) + step_lead(self.head) + 2 * (t + 1),
        )
    }

    // The code of the category of step k, from 0; a number, since question 17 is asked of every byte.
    pub fn code(&self, k: usize) -> usize
        requires { k < step_count (as_head self.now.head) self.now.body.now }
        ensures { (result ≡ step_code (as_head self.now.head) self.now.body.now k) × (result < 256) }
    {
        if own_steps(self.head) {
            usize::from(self.body[k * step_width(self.head)])
        } else {
            k
        }
    }

    // The number of the step that gets the vacancies of step k, from 0; 0 for none, as the file has it.
    pub fn receiver(&self, k: usize) -> usize
        requires { k < step_count (as_head self.now.head) self.now.body.now }
        ensures { result ≡ receiver_in (as_head self.now.head) self.now.body.now k }
    {
        if own_steps(self.head) {
            usize::from(self.body[k * step_width(self.head) + 1])
        } else if self.head.policy == 1 && k == 3 {
            6
        } else {
            0
        }
    }

    // The positions of all steps.
    fn positions_sum(&self) -> usize
        ensures { result ≡ sum_of (step_count (as_head self.now.head) self.now.body.now) (positions_in (as_head self.now.head) self.now.body.now) }
    {
        (0..self.count()).map(|k| self.positions(k)).sum()
    }

    // The reserved positions of step k, from 0.
    fn reserved_sum(&self, k: usize) -> usize
        requires { k < step_count (as_head self.now.head) self.now.body.now }
        ensures { result ≡ sum_of self.now.head.types (reserved_in (as_head self.now.head) self.now.body.now k) }
    {
        (0..self.head.types).map(|t| self.reserved(k, t)).sum()
    }

    // Whether in each step the reserved positions sum to at most the positions.
    fn reserved_fit(&self) -> bool
        ensures { result
            ≡ all_of (step_count (as_head self.now.head) self.now.body.now)
            (λ k. leb (sum_of self.now.head.types (reserved_in (as_head self.now.head) self.now.body.now k)) (positions_in (as_head self.now.head) self.now.body.now k)) }
    {
        (0..self.count()).all(|k| self.reserved_sum(k) <= self.positions(k))
    }

    // Whether each step has the code of a category.
    fn codes_known(&self) -> bool
        ensures { result ≡ all_of (step_count (as_head self.now.head) self.now.body.now) (λ k. leb (step_code (as_head self.now.head) self.now.body.now k) 4) }
    {
        (0..self.count()).all(|k| self.code(k) <= 4)
    }

    // Whether the vacancies of step k, from 0, go to nobody or to a later step.
    fn receiver_later(&self, k: usize) -> bool
        requires { k < step_count (as_head self.now.head) self.now.body.now }
        ensures { result
            ≡ (eqb (receiver_in (as_head self.now.head) self.now.body.now k) 0
            || numbers.within (k + 2) (step_count (as_head self.now.head) self.now.body.now) (receiver_in (as_head self.now.head) self.now.body.now k)) }
    {
        let receiver = self.receiver(k);
        receiver == 0 || (k + 2..=self.count()).contains(&receiver)
    }

    // Whether each step's vacancies do.
    fn receivers_later(&self) -> bool
        ensures { result
            ≡ all_of (step_count (as_head self.now.head) self.now.body.now)
            (λ k. eqb (receiver_in (as_head self.now.head) self.now.body.now k) 0
            || numbers.within (k + 2) (step_count (as_head self.now.head) self.now.body.now) (receiver_in (as_head self.now.head) self.now.body.now k)) }
    {
        (0..self.count()).all(|k| self.receiver_later(k))
    }

    // Questions 17 and 18 of a list of steps.
    pub fn ask_list(&self) -> Result<(), Question>
        ensures { number_in result ≡ first_no (list_questions (as_head self.now.head) self.now.body.now) }
    {
        if !self.codes_known() {
            return Err(Question::Categories);
        }
        if !self.receivers_later() {
            return Err(Question::Receivers);
        }
        Ok(())
    }

    // Questions 6 and 7 and, of an institute that lists its own steps, 17 and 18.
    pub fn ask(&self) -> Result<(), Question>
        ensures { number_in result ≡ first_no (institute_questions (as_head self.now.head) self.now.body.now) }
    {
        if 1024 < self.positions_sum() {
            return Err(Question::Positions);
        }
        if !self.reserved_fit() {
            return Err(Question::Reserved);
        }
        if own_steps(self.head) {
            return self.ask_list();
        }
        Ok(())
    }
}
