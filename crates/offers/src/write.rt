// Seats as bytes, written in the form of the file.
ghost use Rattle.std.specs.Prelude.{◌≡◌, ◌+◌, ◌*◌, ◌<◌, ◌≤◌, length};
ghost use Rattle.std.proofs.lemmas.List.Edits.{sets};
ghost use Rattle.questions.specs.Form.{institutes_most, seat_width};
ghost use Rattle.offers.specs.Areas.{word_bytes, seat_bytes};
ghost use Rattle.offers.specs.Held.{held_bytes, HoldersFew};

use questions::form::Form;

// A two-byte number, little-endian, at any place of an area.
pub fn write_word(area: &mut [u8], at: usize, x: usize)
    requires { at + 2 ≤ length area.old }
    ensures { area.new ≡ sets area.old at (word_bytes x) }
{
    area[at..at + 2].copy_from_slice(&((x % 65536) as u16).to_le_bytes());
}

// The seat of candidate i, from 0, in the form of the file: institute and step, or a two-byte institute, the step and a zero byte.
fn write_seat(area: &mut [u8], form: Form, i: usize, institute: u16, step: u8)
    requires form_in_bounds { (seat_width form * i + seat_width form ≤ length area.old) × (institute ≤ institutes_most form) }
    requires i_bound { i < 512 }
    ensures { area.new ≡ sets area.old (seat_width form * i) (seat_bytes form (record { institute = institute; step = step })) }
{
    match form {
        Form::Narrow => area[2 * i..2 * i + 2].copy_from_slice(&[institute as u8, step]),
        Form::Wide => {
            let [low, high] = institute.to_le_bytes();
            area[4 * i..4 * i + 4].copy_from_slice(&[low, high, step, 0]);
        }
    }
}

// For each candidate, the seat, by the two tables that the process leaves side by side.
pub fn write_seats(form: Form, holders: &[u16], steps: &[u8], area: &mut [u8])
    requires steps_len { (length steps.now ≡ length holders.now) × (length holders.now ≤ 512) }
    requires holders_few { HoldersFew form holders.now }
    requires holders_in_bounds { seat_width form * length holders.now ≤ length area.old }
    ensures { area.new ≡ sets area.old 0 (held_bytes form holders.now steps.now) }
{
    for (i, (holder, step)) in holders.iter().zip(steps).enumerate() {
        write_seat(area, form, i, *holder, *step);
    }
}
