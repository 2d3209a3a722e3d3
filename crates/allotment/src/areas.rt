// The bytes of the answer area: the seats, then the closing places, then the types used.
ghost use Rattle.std.specs.Prelude.{◌≡◌, ◌++◌, ◌*◌, ◌≤◌, length, take, drop, replicate};
ghost use Rattle.lists.specs.Lists.{tabulate, joined};
ghost use Rattle.reader.specs.AtHand.{round_at};
ghost use Rattle.offers.specs.Process.{seats, types_used};
ghost use Rattle.offers.specs.Held.{HeldIn, SeatsWanted};
ghost use Rattle.allotment.specs.Areas.{closing_width, closing_bytes, answer_bytes, answer_size};
ghost use Rattle.allotment.specs.Writing.{closings_in};

use crate::sizes::{closing_count, closing_width};
use choice::step::Numbers;
use offers::seats::seats_wanted;
use offers::write::{write_seats, write_word};
use questions::form::seats_size;
use questions::head::own_steps;
use reader::opened::Opened;
use sweeps::gather::Offers;

// The closing places of an institute, twelve or six, by the numbers of its account.
fn write_institute(noted: &[Numbers; 12], listed: bool, places: &mut [u8])
    requires { length places.old ≡ closing_width listed }
    ensures { places.new ≡ closings_in listed noted.now }
{
    let count = closing_count(listed);
    for (k, numbers) in noted[..count].iter().enumerate() {
        write_word(places, 2 * k, numbers.closing);
    }
}

// A round with its seats as the two tables of the process hold them: the institute and the step of each candidate, 0 and 0 for none as `HeldIn` has it.
#[derive(Clone, Copy)]
pub struct Seated<'a> {
    pub o: Opened<'a, 'a>,
    pub holders: &'a [u16],
    pub steps: &'a [u8],
    pub ghost held: { HeldIn (seats (round_at o)) holders.now steps.now },
}

impl Seated<'_> {
    // The closing places of every institute, and the types used: each institute chooses once more, from its seats, whose categories a table has. Tables side by
    // side, as `Offers` takes them.
    fn write_each(&self, wanted: &[u8], types: &mut [u8], closings: &mut [u8])
        requires wanted { SeatsWanted (round_at self.now.o) (length self.now.steps.now) self.now.holders.now self.now.steps.now wanted.now }
        requires types_value { types.old ≡ replicate self.now.o.head.candidates 0 }
        requires closings_len { length closings.old ≡ closing_width (round_at self.now.o).steps_listed * self.now.o.head.institutes }
        ensures types { types.new ≡ types_used (round_at self.now.o) }
        ensures closings { closings.new ≡ joined (tabulate self.now.o.head.institutes (closing_bytes (round_at self.now.o))) }
    {
        let h = self.o.head;
        let listed = own_steps(h);
        let width = closing_width(listed);
        let offers = Offers {
            o: self.o,
            asked: self.holders,
            wanted,
        };
        // By index, since a proof has no values behind `chunks_exact_mut`.
        for j in 0..h.institutes {
            let noted = offers.account_anew(j, types);
            write_institute(&noted, listed, &mut closings[width * j..width * j + width]);
        }
    }

    // The closing places of every institute; returns a table that begins with the types used.
    fn write_closings(&self, closings: &mut [u8]) -> [u8; 512]
        requires { length closings.old ≡ closing_width (round_at self.now.o).steps_listed * self.now.o.head.institutes }
        ensures types { take self.now.o.head.candidates result ≡ types_used (round_at self.now.o) }
        ensures closings { closings.new ≡ joined (tabulate self.now.o.head.institutes (closing_bytes (round_at self.now.o))) }
    {
        let n = self.o.head.candidates;
        let mut wanted = [0; 512];
        seats_wanted(&self.o, self.holders, self.steps, &mut wanted[..n]);
        let mut types = [0; 512];
        self.write_each(&wanted[..n], &mut types[..n], closings);
        types
    }

    // All that the answer area gets.
    pub fn write_answer(&self, answer: &mut [u8])
        requires { answer_size self.now.o.head.form (round_at self.now.o) ≤ length answer.old }
        ensures { answer.new ≡ answer_bytes self.now.o.head.form (round_at self.now.o) ++ drop (answer_size self.now.o.head.form (round_at self.now.o)) answer.old }
    {
        let h = self.o.head;
        let n = h.candidates;
        let (seats, rest) = answer.split_at_mut(seats_size(h.form, n));
        let (closings, rest) = rest.split_at_mut(closing_width(own_steps(h)) * h.institutes);
        write_seats(h.form, self.holders, self.steps, seats);
        let types = self.write_closings(closings);
        rest[..n].copy_from_slice(&types[..n]);
    }
}
