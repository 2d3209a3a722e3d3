// A candidate's body: code, marks and row, and questions 8 to 10.
ghost use Rattle.std.specs.Prelude.{◌≡◌, ◌≤◌, length};
ghost use Rattle.questions.specs.Questions.{first_no, candidate_questions};
ghost use Rattle.questions.specs.Numbered.{number_in};
ghost use Rattle.questions.specs.Read.{as_head, InRange, marks_in};

use crate::head::Head;
use crate::question::Question;
use crate::row::Row;

// Whether the code is one of the five, with no mark above the types.
fn marks_lawful(body: &[u8], types: usize) -> bool
    requires in_bounds { 2 ≤ length body.now }
    requires types_bound { types ≤ 8 }
    ensures { result ≡ marks_in types body.now }
{
    body[0] <= 4 && usize::from(body[1]) < 1 << types
}

// Questions 8 to 10 of a candidate's body.
pub fn ask_candidate(body: &[u8], h: Head) -> Result<(), Question>
    requires in_bounds { 2 ≤ length body.now }
    requires in_range { InRange (as_head h) }
    ensures { number_in result ≡ first_no (candidate_questions (as_head h) body.now) }
{
    if !marks_lawful(body, h.types) {
        return Err(Question::Marks);
    }
    let row = Row {
        bytes: &body[2..],
        form: h.form,
    };
    row.ask(h.institutes, body[0])
}
