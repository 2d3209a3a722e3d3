// A list of seats under review for an opened round: which seats stand in their holders' rows, and these as offers.
ghost use Rattle.std.specs.Prelude.{◌≡◌, ◌<◌, length, replicate};
ghost use Rattle.reader.specs.AtHand.{round_at};
ghost use Rattle.offers.specs.Areas.{seat_in};
ghost use Rattle.offers.specs.Listed.{UnderReview, AllRead, above, in_row};

use crate::list::SeatList;
use crate::seats::rank_in;
use reader::opened::Opened;
use round::entry::Entry;

// A round, and bytes with a seat for each of its candidates.
#[derive(Clone, Copy)]
pub struct Listed<'a> {
    pub o: Opened<'a, 'a>,
    pub list: &'a [u8],
    pub ghost under_review: { UnderReview o.head list.now },
}

impl<'a> Listed<'a> {
    ghost use Rattle.offers.specs.AtHand.{seats_at};

    // The list by itself.
    fn seats(&self) -> SeatList<'a>
        ensures form { result.form ≡ self.now.o.head.form }
        ensures bytes { result.bytes.now ≡ self.now.list.now }
    {
        SeatList {
            bytes: self.list,
            form: self.o.head.form,
        }
    }

    // The institute number of candidate i's seat.
    #[tactic(auto, using(crate::proofs::SeatsRanked::few_listed, crate::proofs::SeatsRanked::bytes_listed))]
    pub fn institute(&self, i: usize) -> usize
        requires { i < self.now.o.head.candidates }
        ensures { (result ≡ (seat_in self.now.o.head.form self.now.list.now i).institute) × (result < 65536) }
    {
        self.seats().institute(i)
    }

    // The step of candidate i's seat; 256 or more where a wide seat does not end with a zero byte.
    #[tactic(auto, using(crate::proofs::SeatsRanked::few_listed, crate::proofs::SeatsRanked::bytes_listed))]
    pub fn step(&self, i: usize) -> usize
        requires { i < self.now.o.head.candidates }
        ensures { (result ≡ (seat_in self.now.o.head.form self.now.list.now i).step) × (result < 65536) }
    {
        self.seats().step(i)
    }

    // How many entries of the row of candidate i, from 0, rank above the listed seat: all of them where it is none of the row, by the definition.
    pub fn entries_above(&self, i: usize) -> usize
        requires { i < self.now.o.head.candidates }
        ensures { result ≡ above (round_at self.now.o) (seats_at self.now) i }
    {
        let o = self.o;
        let institute = self.institute(i);
        let step = self.step(i);
        if !(1..=o.head.institutes).contains(&institute) {
            return o.row_length(i);
        }
        let j = institute - 1;
        if !(1..=o.step_numbers(j)).contains(&step) {
            return o.row_length(i);
        }
        let category = o.step_category(j, step);
        rank_in(
            &o,
            i,
            Entry {
                institute,
                category,
            },
        )
    }

    // Whether candidate i's listed seat is in the row.
    fn in_row(&self, i: usize) -> bool
        requires { i < self.now.o.head.candidates }
        ensures { result ≡ in_row (round_at self.now.o) (seats_at self.now) i }
    {
        self.entries_above(i) < self.o.row_length(i)
    }

    // Puts the listed seats that are in their rows into two tables, as offers.
    pub fn read_seats(&self, asked: &mut [u16], wanted: &mut [u8])
        requires { (asked.old ≡ replicate self.now.o.head.candidates 0) × (length wanted.old ≡ self.now.o.head.candidates) }
        ensures { AllRead (round_at self.now.o) self.now.o.head.form self.now.list.now asked.new wanted.new }
    {
        // By index, since two tables are written, and a proof has no values behind a zip of two `iter_mut`.
        for i in 0..asked.len() {
            if self.in_row(i) {
                let institute = self.institute(i);
                let category = self.o.step_category(institute - 1, self.step(i));
                asked[i] = institute as u16;
                wanted[i] = category.set();
            }
        }
    }
}
