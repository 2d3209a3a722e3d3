// The two forms of a round file: narrow, with entries of two bytes, and wide, with entries of three.
ghost use Rattle.std.specs.Prelude.{◌≡◌, ◌*◌, ◌≤◌};
ghost use Rattle.questions.specs.Form.{institutes_most, form_kind, seat_width};
ghost use Rattle.questions.specs.Records.{form_of};

use lists::word::word;

// The form of a file, and so of the seats of its round.
#[derive(Clone, Copy, Debug, PartialEq, Eq)]
pub enum Form {
    Narrow,
    Wide,
}

// The form of a file, by the kind of its head.
#[tactic(auto, unfolding(crate::specs::Records::form_of))]
pub fn form_of(file: &[u8]) -> Form
    ensures { result ≡ form_of file.now }
{
    if 4 <= file.len() && word(file, 2) == 5 {
        Form::Wide
    } else {
        Form::Narrow
    }
}

// The most institutes that a round may have. One function with the numbers for arguments would be no plainer than this and each like it.
pub fn institutes_most(form: Form) -> usize
    ensures { result ≡ institutes_most form }
{
    match form {
        Form::Narrow => 32,
        Form::Wide => 1000,
    }
}

// The bytes of the seats of so many candidates.
pub fn seats_size(form: Form, candidates: usize) -> usize
    requires { candidates ≤ 512 }
    ensures { result ≡ seat_width form * candidates }
{
    match form {
        Form::Narrow => 2 * candidates,
        Form::Wide => 4 * candidates,
    }
}

// The kind that the form gives for one of the kinds 1 to 4, whatever the policy. A kind is a number, since any number has an answer here.
pub fn form_kind(form: Form, kind: usize) -> usize
    ensures { result ≡ form_kind form kind }
{
    match (form, kind) {
        (Form::Wide, 1) => 5,
        (Form::Wide, 3) => 6,
        _ => kind,
    }
}
