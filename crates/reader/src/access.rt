// What the opened round has, number by number: no layer above speaks of bytes. Of a changed round the new row and the places of the raised
// and the passed are told here, and nowhere else.
ghost use Rattle.std.specs.Prelude.{◌≡◌, ◌+◌, ◌-◌, ◌<◌, ◌≤◌, length};
ghost use Rattle.questions.specs.Records.{body_of, head_of, behind_head};
ghost use Rattle.round.specs.Places.{candidate_at, institute_at, entry_at, merit_at, step_at, step_numbers};
ghost use Rattle.reader.specs.Outcome.{RoundRead};
ghost use Rattle.questions.specs.Reading.{row_in, round_of};
ghost use Rattle.reader.specs.AtHand.{round_at};
ghost use Rattle.reader.specs.declared.change.Change.TheVariants.{Nothing};
ghost use Rattle.reader.specs.Access.{StepsRead};

use crate::change::Change;
use crate::opened::Opened;
use lists::word::word;
use questions::head::{Head, own_steps};
use questions::institute::Steps;
use questions::merit::merit_in;
use questions::row::Row;
use round::entry::{Category, Entry};

impl<'f, 'a> Opened<'f, 'a> {
    // The file's own round.
    pub fn unchanged(file: &'f [u8], head: Head, starts: &'a [u32]) -> Opened<'f, 'a>
        requires { RoundRead file.now (Ok head) starts.now }
        ensures head { result.head ≡ head }
        ensures change { result.change ≡ Nothing }
        ensures file { result.file.now ≡ file.now }
        ensures starts { result.starts.now ≡ starts.now }
        ensures round { round_at result ≡ round_of file.now }
    {
        Opened {
            file,
            head,
            change: Change::Nothing,
            row: &[],
            starts,
        }
    }

    // The body of the record behind the head that has a number, from 0.
    fn body(&self, k: usize) -> &'f [u8]
        requires { k < behind_head (head_of self.now.file.now) }
        ensures { result.now ≡ body_of self.now.file.now (1 + k) }
    {
        let at = self.starts[k] as usize;
        let start = at + 4;
        let end = start + word(self.file, at);
        &self.file[start..end]
    }

    // The body of candidate i's record in the file.
    fn candidate_body(&self, i: usize) -> &'f [u8]
        requires { i < self.now.head.candidates }
        ensures { result.now ≡ body_of self.now.file.now (1 + (self.now.head.institutes + i)) }
    {
        self.body(self.head.institutes + i)
    }

    // A candidate's marks, the lowest bit for type 1.
    pub fn candidate_marks(&self, i: usize) -> u8
        requires { i < self.now.head.candidates }
        ensures { result ≡ (candidate_at (round_at self.now) i).marks }
    {
        self.candidate_body(i)[1]
    }

    // The bytes of a candidate's row.
    fn row_of(&self, i: usize) -> Row<'_>
        requires { i < self.now.head.candidates }
        ensures { row_in result.form result.bytes.now ≡ (candidate_at (round_at self.now) i).row }
    {
        let bytes = if self.change.replaces(i) {
            self.row
        } else {
            &self.candidate_body(i)[2..]
        };
        Row {
            bytes,
            form: self.head.form,
        }
    }

    // The number of entries in a candidate's row.
    pub fn row_length(&self, i: usize) -> usize
        requires { i < self.now.head.candidates }
        ensures { result ≡ length (candidate_at (round_at self.now) i).row }
    {
        self.row_of(i).len()
    }

    // The entry at a place of a candidate's row, from 0.
    pub fn row_entry(&self, i: usize, k: usize) -> Entry
        requires { (i < self.now.head.candidates) × (k < length (candidate_at (round_at self.now) i).row) }
        ensures { result ≡ entry_at (candidate_at (round_at self.now) i) k }
    {
        self.row_of(i).entry(k)
    }

    // The body of institute j's merit list in the file.
    fn merit_body(&self, j: usize) -> &'f [u8]
        requires { j < self.now.head.institutes }
        ensures { result.now ≡ body_of self.now.file.now (1 + (self.now.head.institutes + (self.now.head.candidates + j))) }
    {
        self.body(self.head.institutes + (self.head.candidates + j))
    }

    // The length of an institute's merit list.
    pub fn merit_length(&self, j: usize) -> usize
        requires { j < self.now.head.institutes }
        ensures { result ≡ length (institute_at (round_at self.now) j).merit }
    {
        self.merit_body(j).len() / 2
    }

    // The candidate number at a place of a merit list, from 0: the one function that reads merit lists.
    pub fn merit_place(&self, j: usize, p: usize) -> usize
        requires { (j < self.now.head.institutes) × (p < length (institute_at (round_at self.now) j).merit) }
        ensures { result ≡ merit_at (institute_at (round_at self.now) j) p }
    {
        merit_in(self.merit_body(j), self.change.stood(j, p))
    }

    // An institute's steps, as they stand in its body.
    pub fn steps(&self, j: usize) -> Steps<'f>
        requires { j < self.now.head.institutes }
        ensures head { result.head ≡ self.now.head }
        ensures steps { StepsRead (round_at self.now) result.head j result.body.now }
    {
        Steps {
            body: self.body(j),
            head: self.head,
        }
    }

    // How many numbers, from 1, the steps of an institute have.
    pub fn step_numbers(&self, j: usize) -> usize
        requires { j < self.now.head.institutes }
        ensures { result ≡ step_numbers (round_at self.now) j }
    {
        if own_steps(self.head) {
            self.steps(j).count()
        } else {
            6
        }
    }

    // The category of a step, by its number from 1.
    pub fn step_category(&self, j: usize, step: usize) -> Category
        requires { (j < self.now.head.institutes) × (1 ≤ step) × (step ≤ step_numbers (round_at self.now) j) }
        ensures { result ≡ (step_at (institute_at (round_at self.now) j) (step - 1)).category }
    {
        let code = if own_steps(self.head) {
            self.steps(j).code(step - 1)
        } else {
            step - 1
        };
        Category::from(code as u8)
    }
}
