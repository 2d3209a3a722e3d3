// The entries in the bytes of a row, and questions 9 and 10 of a row by itself.
ghost use Rattle.std.specs.Prelude.{◌≡◌, not, ◌<◌};
ghost use Rattle.lists.specs.Lists.{all_of, apart};
ghost use Rattle.questions.specs.Numbered.{number_in};
ghost use Rattle.questions.specs.Questions.{first_no, row_questions, entry_count, institute_in, code_in};
ghost use Rattle.questions.specs.Reading.{entry_in};
ghost use Rattle.questions.specs.Read.{lawful_in, same_in};

use crate::form::Form;
use crate::question::Question;
use lists::word::word;
use round::entry::{Category, Entry};

// The bytes of a row, in the form of the file, which lays out each entry in its own way.
#[derive(Clone, Copy)]
pub struct Row<'a> {
    pub bytes: &'a [u8],
    pub form: Form,
}

impl Row<'_> {
    // The number of entries.
    pub fn len(&self) -> usize
        ensures { result ≡ entry_count self.now.form self.now.bytes.now }
    {
        match self.form {
            Form::Narrow => self.bytes.len() / 2,
            Form::Wide => self.bytes.len() / 3,
        }
    }

    // The institute number of the entry at a place, from 0.
    pub fn institute(&self, k: usize) -> usize
        requires { k < entry_count self.now.form self.now.bytes.now }
        ensures { result ≡ institute_in self.now.form self.now.bytes.now k }
    {
        match self.form {
            Form::Narrow => usize::from(self.bytes[2 * k]),
            Form::Wide => word(self.bytes, 3 * k),
        }
    }

    // The code of the entry at a place, from 0; a number, since question 9 is asked of every byte.
    pub fn code(&self, k: usize) -> u8
        requires { k < entry_count self.now.form self.now.bytes.now }
        ensures { result ≡ code_in self.now.form self.now.bytes.now k }
    {
        match self.form {
            Form::Narrow => self.bytes[2 * k + 1],
            Form::Wide => self.bytes[3 * k + 2],
        }
    }

    // The entry at a place, from 0.
    #[tactic(auto, unfolding(crate::specs::Reading::entry_in))]
    pub fn entry(&self, k: usize) -> Entry
        requires { k < entry_count self.now.form self.now.bytes.now }
        ensures { result ≡ entry_in self.now.form self.now.bytes.now k }
    {
        Entry {
            institute: self.institute(k),
            category: Category::from(self.code(k)),
        }
    }

    // Whether an entry names one of so many institutes, with code 0 or the candidate's own.
    fn is_lawful(&self, institutes: usize, own: u8, k: usize) -> bool
        requires { k < entry_count self.now.form self.now.bytes.now }
        ensures { result ≡ lawful_in self.now.form institutes own self.now.bytes.now k }
    {
        let code = self.code(k);
        (1..=institutes).contains(&self.institute(k)) && (code == 0 || code == own)
    }

    // Whether two entries are the same.
    fn same(&self, k: usize, l: usize) -> bool
        requires { (k < entry_count self.now.form self.now.bytes.now) × (l < entry_count self.now.form self.now.bytes.now) }
        ensures { result ≡ same_in self.now.form self.now.bytes.now k l }
    {
        self.institute(k) == self.institute(l) && self.code(k) == self.code(l)
    }

    // Whether each entry is lawful.
    fn all_lawful(&self, institutes: usize, own: u8) -> bool
        ensures { result ≡ all_of (entry_count self.now.form self.now.bytes.now) (lawful_in self.now.form institutes own self.now.bytes.now) }
    {
        (0..self.len()).all(|k| self.is_lawful(institutes, own, k))
    }

    // Whether an entry differs from all before it.
    fn is_fresh(&self, l: usize) -> bool
        requires { l < entry_count self.now.form self.now.bytes.now }
        ensures { result ≡ all_of l (λ k. not (same_in self.now.form self.now.bytes.now k l)) }
    {
        (0..l).all(|k| !self.same(k, l))
    }

    // Whether the entries are all different.
    fn all_differ(&self) -> bool
        ensures { result ≡ apart (entry_count self.now.form self.now.bytes.now) (same_in self.now.form self.now.bytes.now) }
    {
        (0..self.len()).all(|l| self.is_fresh(l))
    }

    // Questions 9 and 10, in a round with so many institutes, of a row by a candidate's own code.
    pub fn ask(&self, institutes: usize, own: u8) -> Result<(), Question>
        ensures { number_in result ≡ first_no (row_questions self.now.form institutes own self.now.bytes.now) }
    {
        if !self.all_lawful(institutes, own) {
            return Err(Question::Entries);
        }
        if !self.all_differ() {
            return Err(Question::SameEntries);
        }
        Ok(())
    }
}
