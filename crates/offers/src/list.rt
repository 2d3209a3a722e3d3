// A list of seats as bytes: the one with which an answer begins, or one under review.
ghost use Rattle.std.specs.Prelude.{◌≡◌, ◌+◌, ◌*◌, ◌≤◌, ◌<◌, length};
ghost use Rattle.questions.specs.Form.{seat_width};
ghost use Rattle.offers.specs.Areas.{seat_in};

use lists::word::word;
use questions::form::Form;

// The bytes that begin with the seats of candidates, in the form of the file, which lays out each seat in its own way.
#[derive(Clone, Copy)]
pub struct SeatList<'a> {
    pub bytes: &'a [u8],
    pub form: Form,
}

impl SeatList<'_> {
    // The institute number of the seat of candidate i, from 0.
    #[tactic(auto, unfolding(crate::specs::Areas::seat_in))]
    pub fn institute(&self, i: usize) -> usize
        requires { (i < 512) × (seat_width self.now.form * i + seat_width self.now.form ≤ length self.now.bytes.now) }
        ensures { (result ≡ (seat_in self.now.form self.now.bytes.now i).institute) × (result < 65536) }
    {
        match self.form {
            Form::Narrow => usize::from(self.bytes[2 * i]),
            Form::Wide => word(self.bytes, 4 * i),
        }
    }

    // The step of the seat of candidate i, from 0; 256 or more where a wide seat does not end with a zero byte.
    #[tactic(auto, unfolding(crate::specs::Areas::seat_in))]
    pub fn step(&self, i: usize) -> usize
        requires { (i < 512) × (seat_width self.now.form * i + seat_width self.now.form ≤ length self.now.bytes.now) }
        ensures { (result ≡ (seat_in self.now.form self.now.bytes.now i).step) × (result < 65536) }
    {
        match self.form {
            Form::Narrow => usize::from(self.bytes[2 * i + 1]),
            Form::Wide => word(self.bytes, 4 * i + 2),
        }
    }
}
