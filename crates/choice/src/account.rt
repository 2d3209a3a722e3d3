// The closing places in the account of an institute's choice.
ghost use Rattle.std.specs.Prelude.{◌≡◌, ◌≤◌, length};
ghost use Rattle.choice.specs.Noted.{place_from, ClosingsFew, Placed};

use crate::step::Numbers;

// The place of a closing place, from 1, by a table of places; 0 of 0, which is nobody's as `closing_place` has it.
fn place_from(places: &[u16], closing: usize) -> usize
    requires { closing ≤ length places.now }
    ensures { result ≡ place_from places.now closing }
{
    if closing == 0 {
        0
    } else {
        usize::from(places[closing - 1]) + 1
    }
}

// Puts the places of the closing places, by a table of places, into an account.
pub fn place_closings(places: &[u16], noted: &mut [Numbers])
    requires { ClosingsFew (length places.now) noted.old }
    ensures { Placed places.now noted.old noted.new }
{
    for numbers in noted.iter_mut() {
        numbers.closing = place_from(places, numbers.closing);
    }
}
