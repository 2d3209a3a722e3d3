// Seats and rows: where an entry stands in a row, and the categories of the seats of the round.
ghost use Rattle.std.specs.Prelude.{◌≡◌, ◌<◌, length};
ghost use Rattle.reader.specs.AtHand.{round_at};
ghost use Rattle.offers.specs.Rows.{row_at, rank_in};
ghost use Rattle.offers.specs.Process.{seats};
ghost use Rattle.offers.specs.Held.{HeldIn, SeatsWanted};

use reader::opened::Opened;
use round::entry::Entry;

// The place of an entry in candidate i's row, from 0; the row's length where the row has it not, since this is how many entries rank above it.
pub fn rank_in(o: &Opened<'_, '_>, i: usize, entry: Entry) -> usize
    requires i_lt_candidates { i < o.now.head.candidates }
    ensures { result ≡ rank_in (row_at (round_at o.now) i) entry }
{
    let size = o.row_length(i);
    (0..size)
        .find(|k| o.row_entry(i, *k) == entry)
        .unwrap_or(size)
}

// The set of the category of each seat's step, by the two tables that the process leaves; 0 for none, as `HeldIn` has it. The third is
// written by index, since a proof has no values behind `iter_mut().zip`.
pub fn seats_wanted(o: &Opened<'_, '_>, holders: &[u16], steps: &[u8], wanted: &mut [u8])
    requires held_in { HeldIn (seats (round_at o.now)) holders.now steps.now }
    requires wanted_len { length wanted.old ≡ length steps.now }
    ensures { SeatsWanted (round_at o.now) (length steps.now) holders.now steps.now wanted.new }
{
    for (i, (holder, step)) in holders.iter().zip(steps).enumerate() {
        if *holder != 0 {
            let category = o.step_category(usize::from(*holder) - 1, usize::from(*step));
            wanted[i] = category.set();
        }
    }
}
