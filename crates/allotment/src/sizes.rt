// The sizes of the parts of the answer area.
ghost use Rattle.std.specs.Prelude.{◌≡◌, ◌≤◌};
ghost use Rattle.allotment.specs.Areas.{closing_count, closing_width, size_for};

use questions::form::Form;

// The number of an institute's closing places, by whether institutes list their own steps.
#[tactic(auto, unfolding(crate::specs::Areas::closing_count))]
pub fn closing_count(listed: bool) -> usize
    ensures { result ≡ closing_count listed }
{
    if listed { 12 } else { 6 }
}

// Their bytes.
#[tactic(auto, using(crate::proofs::Files::AreaSeats::places_wide, crate::proofs::Files::Closing::places_few))]
pub fn closing_width(listed: bool) -> usize
    ensures { result ≡ closing_width listed }
{
    2 * closing_count(listed)
}

// The bytes of the answer area that question 14 asks for.
pub fn answer_size(form: Form, listed: bool, n: usize, m: usize) -> usize
    requires { (n ≤ 512) × (m ≤ 1000) }
    ensures { result ≡ size_for form listed n m }
{
    let closings = closing_width(listed) * m;
    match form {
        Form::Narrow => 3 * n + closings,
        Form::Wide => 5 * n + closings,
    }
}
