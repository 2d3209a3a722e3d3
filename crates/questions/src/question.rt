// The questions that are put to a file and to the areas lent with it.
ghost use Rattle.std.specs.Prelude.{◌≡◌};

// A question, by what it asks of; it has a number, from 1 to 18.
#[derive(Clone, Copy, Debug, PartialEq, Eq)]
pub enum Question {
    Lead,
    Kind,
    Length,
    Body,
    Head,
    Positions,
    Reserved,
    Marks,
    Entries,
    SameEntries,
    Places,
    SamePlaces,
    End,
    Areas,
    List,
    Input,
    Categories,
    Receivers,
}

impl Question {
    ghost use Rattle.questions.specs.Numbered.{number_of};

    // The number by which the question is refused.
    pub fn number(self) -> usize
        ensures { result ≡ number_of self }
    {
        match self {
            Question::Lead => 1,
            Question::Kind => 2,
            Question::Length => 3,
            Question::Body => 4,
            Question::Head => 5,
            Question::Positions => 6,
            Question::Reserved => 7,
            Question::Marks => 8,
            Question::Entries => 9,
            Question::SameEntries => 10,
            Question::Places => 11,
            Question::SamePlaces => 12,
            Question::End => 13,
            Question::Areas => 14,
            Question::List => 15,
            Question::Input => 16,
            Question::Categories => 17,
            Question::Receivers => 18,
        }
    }
}
