// The reader of a round file: questions 1 to 13, 17 and 18.
ghost use Rattle.std.specs.Prelude.{◌≡◌, ◌≤◌, length};
ghost use Rattle.questions.specs.Read.{as_head, InRange};
ghost use Rattle.reader.specs.Outcome.{RestRead, RoundRead};

use crate::records::Records;
use crate::refusal::Refusal;
use questions::form::{Form, form_of};
use questions::head::{Head, head_in};
use questions::question::Question;

// The numbers that stand in for a head while none but the form is read.
fn unread(form: Form) -> Head
    ensures { InRange (as_head result) × (result.form ≡ form) }
{
    Head {
        form,
        candidates: 1,
        institutes: 1,
        types: 0,
        policy: 0,
    }
}

impl Records<'_> {
    // The records after the head, and the end of the file.
    fn read_rest(&self, from: usize, starts: &mut [u32]) -> Result<Head, Refusal>
        requires from_in_bounds { (from ≤ length self.now.file.now) × (from ≤ 12) }
        requires in_bounds { 2512 ≤ length starts.old }
        ensures { RestRead self.now.file.now (as_head self.now.head) from result starts.new }
    {
        let n = self.head.candidates;
        let m = self.head.institutes;
        let rows = self.read_kind(from, 2, 0, m, starts)?;
        let lists = self.read_kind(rows, 3, m, n, starts)?;
        let end = self.read_kind(lists, 4, m + n, m, starts)?;
        if end == self.file.len() {
            Ok(self.head)
        } else {
            Err(Refusal {
                question: Question::End,
                offset: end,
            })
        }
    }
}

// A round file: refused with the first question answered no and its byte, or read, with where each record behind the head starts.
pub fn read_round(file: &[u8], starts: &mut [u32]) -> Result<Head, Refusal>
    requires { 2512 ≤ length starts.old }
    ensures { RoundRead file.now result starts.new }
{
    let form = form_of(file);
    let end = Records {
        file,
        head: unread(form),
    }
    .read(0, 1)?;
    let head = head_in(&file[4..end], form);
    Records { file, head }.read_rest(end, starts)
}
