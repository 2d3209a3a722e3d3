// Records: questions 1 to 4, one record, and the records of one kind in a row.
ghost use Rattle.std.specs.Prelude.{◌≡◌, true, ◌+◌, ◌*◌, ◌<◌, ◌≤◌, length};
ghost use Rattle.questions.specs.Form.{entry_width};
ghost use Rattle.questions.specs.Records.{next_at};
ghost use Rattle.questions.specs.Questions.{first_no, lead_questions, kind_questions, questions_at, row_allowed, institute_allowed, length_allowed};
ghost use Rattle.questions.specs.Read.{as_head, InRange};
ghost use Rattle.questions.specs.Numbered.{number_in};
ghost use Rattle.reader.specs.Parts.{RecordFound, RecordRead, RunRead};

use crate::refusal::Refusal;
use lists::word::word;
use questions::candidate::ask_candidate;
use questions::form::Form;
use questions::head::{Head, ask_head, kind_due, own_steps};
use questions::institute::{Steps, step_width};
use questions::merit::ask_merit;
use questions::question::Question;

// The bytes of an entry; a function by itself, as `institutes_most` is.
fn entry_width(form: Form) -> usize
    ensures { (result ≡ entry_width form) × (0 < result) × (result ≤ 3) }
{
    match form {
        Form::Narrow => 2,
        Form::Wide => 3,
    }
}

// Whether a candidate's body may have a length.
fn row_allowed(form: Form, len: usize) -> bool
    ensures { result ≡ row_allowed form len }
{
    let width = entry_width(form);
    (2..=2 + 16 * width).contains(&len) && (len - 2) % width == 0
}

// Whether an institute's body may have a length.
pub fn institute_allowed(h: Head, len: usize) -> bool
    requires { InRange (as_head h) }
    ensures { result ≡ institute_allowed (as_head h) len }
{
    if own_steps(h) {
        let width = step_width(h);
        (1..=12).contains(&(len / width)) && len % width == 0
    } else {
        len == 10 + 10 * h.types
    }
}

// A file and its head, by which its records are read. The kind of a record is a number, since `read` promises an answer for every number.
#[derive(Clone, Copy)]
pub struct Records<'a> {
    pub file: &'a [u8],
    pub head: Head,
    pub ghost in_range: { InRange (as_head head) },
}

impl Records<'_> {
    // Whether the table allows a body length for a kind; a `match`, since a closure for each kind would be no plainer.
    fn length_allowed(&self, kind: usize, len: usize) -> bool
        ensures { result ≡ length_allowed (as_head self.now.head) kind len }
    {
        match kind {
            1 => len == 8,
            2 => institute_allowed(self.head, len),
            3 => row_allowed(self.head.form, len),
            _ => len <= 2 * self.head.candidates && len % 2 == 0,
        }
    }

    // Questions 1 to 4 of the record due with a kind at a byte; the first byte behind a record that has them answered yes.
    fn find(&self, at: usize, kind: usize) -> Result<usize, Question>
        requires { at ≤ length self.now.file.now }
        ensures { RecordFound (first_no (lead_questions self.now.file.now (as_head self.now.head) kind at)) (next_at self.now.file.now at) result }
    {
        if self.file.len() - at < 4 {
            return Err(Question::Lead);
        }
        if word(self.file, at + 2) != kind_due(self.head, kind) {
            return Err(Question::Kind);
        }
        let len = word(self.file, at);
        if !self.length_allowed(kind, len) {
            return Err(Question::Length);
        }
        let start = at + 4;
        if self.file.len() - start < len {
            return Err(Question::Body);
        }
        Ok(start + len)
    }

    // The questions of a kind about a body, picked as in `length_allowed`.
    fn ask_body(&self, body: &[u8], kind: usize) -> Result<(), Question>
        requires { length_allowed (as_head self.now.head) kind (length body.now) ≡ true }
        ensures { number_in result ≡ first_no (kind_questions (as_head self.now.head) kind body.now) }
    {
        match kind {
            1 => ask_head(body, self.head.form),
            2 => Steps {
                body,
                head: self.head,
            }
            .ask(),
            3 => ask_candidate(body, self.head),
            _ => ask_merit(body, self.head),
        }
    }

    // All questions of the record due with a kind at a byte; the first byte behind a record that has them answered yes.
    fn ask(&self, at: usize, kind: usize) -> Result<usize, Question>
        requires { at ≤ length self.now.file.now }
        ensures { RecordFound (first_no (questions_at self.now.file.now (as_head self.now.head) kind at)) (next_at self.now.file.now at) result }
    {
        let end = self.find(at, kind)?;
        self.ask_body(&self.file[at + 4..end], kind)?;
        Ok(end)
    }

    // The record due with a kind at a byte; the first byte behind a record that has all questions answered yes.
    pub fn read(&self, at: usize, kind: usize) -> Result<usize, Refusal>
        requires { at ≤ length self.now.file.now }
        ensures { RecordRead (first_no (questions_at self.now.file.now (as_head self.now.head) kind at)) at (next_at self.now.file.now at) result }
    {
        self.ask(at, kind).map_err(|question| Refusal {
            question,
            offset: at,
        })
    }

    // The records of one kind, as many as are due, from a byte on; the table gets where each starts, from a place on. The first record that is not as due
    // ends the reading: its refusal is handed up as it is.
    pub fn read_kind(
        &self,
        from: usize,
        kind: usize,
        first: usize,
        count: usize,
        starts: &mut [u32],
    ) -> Result<usize, Refusal>
        requires from_in_bounds { (from ≤ length self.now.file.now) × (from ≤ 1028 * (1 + first)) }
        requires count_bound { (first + count ≤ 2512) × (2512 ≤ length starts.old) }
        ensures { RunRead self.now.file.now (as_head self.now.head) kind first count from starts.old result starts.new }
    {
        let mut at = from;
        for start in &mut starts[first..first + count] {
            let got = self.read(at, kind);
            let Ok(end) = got else {
                return got;
            };
            *start = at as u32;
            at = end;
        }
        Ok(at)
    }
}
